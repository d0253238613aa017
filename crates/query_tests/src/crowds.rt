//! Threads that ask while others add bodies, give batches up and move.
ghost use Rattle.std.specs.Prelude.{◌≡◌, ◌<◌, ◌≤◌, IfSome};
ghost use Rattle.pass_table.specs.Passes.{IsIdle};
ghost use Rattle.tree_query.specs.Finding.{room_of};

use crate::places::{add, between, put};
use batch_add::{abort, finalize, prepare};
use body_ident::BodyId;
use fixed_box::{FixBox, Shape};
use pass_table::{Pass, World, open_world};
use std::alloc::Global;
use std::sync::Wait;
use std::test::Fail;
use std::thread::{Threads, join};
use tree_query::{Finder, query};
use widen_bounds::move_body;
use word_map::Config;

/// How often each thread does what it does.
const ROUNDS: u32 = 60;

/// Room for 8 bodies of one layer, and three threads.
const SIZES: Config = Config {
    bodies: 8,
    stripes: 4,
    layers: 1,
    slots: 3,
    nodes: 8,
    passes: 3,
};

/// A world of these sizes and its passes, of which none has done anything.
fn open_three(alloc: Global) -> Option<(World, Pass, Pass, Pass)>
    ensures bodies { IfSome result (λ opened. opened.0.map.bodies ≡ 8) }
    ensures layers { IfSome result (λ opened. opened.0.map.layers ≡ 1) }
    ensures first { IfSome result (λ opened. IsIdle opened.0 opened.1) }
    ensures second { IfSome result (λ opened. IsIdle opened.0 opened.2) }
    ensures third { IfSome result (λ opened. IsIdle opened.0 opened.3) }
{
    let Ok((world, mut list)) = open_world(alloc, SIZES) else {
        return None;
    };
    let first = list.next()?;
    let second = list.next()?;
    let third = list.next()?;
    Some((world, first, second, third))
}

/// What a thread that asks has seen.
#[derive(Clone, Copy, PartialEq, Eq)]
struct Seen {
    /// How many answers held the body that was in from the beginning.
    whole: u32,
    /// How many held the body whose batches are all given up.
    wrong: u32,
    /// Whether an answer held the body that comes in at some time.
    came: bool,
    /// How many came behind such a one and did not hold it.
    lost: u32,
}

impl Seen {
    const NOTHING: Seen = Seen {
        whole: 0,
        wrong: 0,
        came: false,
        lost: 0,
    };

    /// One answer more.
    fn with(self, stays: bool, given_up: bool, comes: bool) -> Seen {
        Seen {
            whole: self.whole.wrapping_add(u32::from(stays)),
            wrong: self.wrong.wrapping_add(u32::from(given_up)),
            came: self.came || comes,
            lost: self.lost.wrapping_add(u32::from(self.came && !comes)),
        }
    }
}

/// Whether a finder holds the id.
fn has(finder: &Finder, wanted: BodyId) -> bool {
    for id in finder.ids() {
        if id == wanted {
            return true;
        }
    }
    false
}

/// Asks again and again for all bodies of a box. The bodies at the indexes 0, 1 and 2 are the one that is in from the beginning,
/// the one whose batches are given up, and the one that comes in.
fn watch<R: Wait>(rt: &R, world: &World, pass: Pass, finder: Finder, bounds: FixBox) -> Seen
    requires idle { IsIdle world.now pass }
    requires room { world.now.map.bodies ≤ room_of finder }
{
    let mut pass = pass;
    let mut finder = finder;
    let mut seen = Seen::NOTHING;
    for _ in 0..ROUNDS {
        query(rt, world, &mut pass, &Shape::Box(bounds), 1, &mut finder);
        seen = seen.with(
            has(&finder, BodyId::new(0, 1)),
            has(&finder, BodyId::new(1, 1)),
            has(&finder, BodyId::new(2, 1)),
        );
    }
    seen
}

/// Prepares a batch of one body and gives it up, round after round. It answers how often there was a slot.
fn give_up<R: Wait>(rt: &R, alloc: Global, world: &World, pass: Pass, id: BodyId) -> (u32, Pass)
    requires idle { IsIdle world.now pass }
    requires layers { 0 < world.now.map.layers }
    requires below { id.index < world.now.map.bodies }
    ensures idle { IsIdle world.now result.1 }
{
    let mut pass = pass;
    let mut tried = 0u32;
    for _ in 0..ROUNDS {
        if let Ok(batch) = prepare(rt, alloc, world, &mut pass, 0, &[id]) {
            abort(rt, world, &mut pass, batch);
            tried = tried.wrapping_add(1);
        }
    }
    (tried, pass)
}

/// The same, and then the body is added. It answers how often there was a slot, and whether there was one at last.
fn give_up_and_add<R: Wait>(
    rt: &R,
    alloc: Global,
    world: &World,
    pass: Pass,
    id: BodyId,
) -> (u32, bool)
    requires idle { IsIdle world.now pass }
    requires layers { 0 < world.now.map.layers }
    requires below { id.index < world.now.map.bodies }
{
    let (tried, mut pass) = give_up(rt, alloc, world, pass, id);
    match prepare(rt, alloc, world, &mut pass, 0, &[id]) {
        Ok(batch) => {
            finalize(world, &mut pass, batch);
            (tried, true)
        }
        Err(_) => (tried, false),
    }
}

/// Two threads that give batches up, each with a body of its own; the second adds its body at last.
fn stream<R: Threads + Wait + Sync>(
    rt: &R,
    alloc: Global,
    world: &World,
    first: Pass,
    second: Pass,
    one: BodyId,
    other: BodyId,
) -> (u32, (u32, bool))
    requires first { IsIdle world.now first }
    requires second { IsIdle world.now second }
    requires layers { 0 < world.now.map.layers }
    requires one_below { one.index < world.now.map.bodies }
    requires other_below { other.index < world.now.map.bodies }
{
    let ((tried, _pass), added) = join(
        rt,
        || give_up(rt, alloc, world, first, one),
        || give_up_and_add(rt, alloc, world, second, other),
    );
    (tried, added)
}

#[test]
fn a_query_beside_batches_finds_what_stays_and_nothing_that_is_given_up(
    rt: HostRuntime,
) -> Result<(), Fail> {
    let alloc = rt.alloc();
    let Some((world, mut first, second, third)) = open_three(alloc) else {
        panic!(rt; "no world")
    };
    let Some(bounds) = between([0, 0, 0], [10, 10, 10]) else {
        panic!(rt; "no box")
    };
    assert!(rt; put_three(&rt, &world, &mut first) == Some(()));
    assert!(rt; add(&rt, alloc, &world, &mut first, &[BodyId::new(0, 1)]));
    let finder = Finder::new(alloc, 8)?;
    let (seen, (one, other)) = join(
        &rt,
        || watch(&rt, &world, first, finder, bounds),
        ||
            requires second { IsIdle world second }
            requires third { IsIdle world third }
            requires bodies { world.map.bodies ≡ 8 }
            requires layers { world.map.layers ≡ 1 }
        {
            stream(
                &rt,
                alloc,
                &world,
                second,
                third,
                BodyId::new(1, 1),
                BodyId::new(2, 1),
            )
        },
    );
    // A slot is left for each of the two.
    assert!(rt; one == ROUNDS && other == (ROUNDS, true));
    assert!(rt; seen.whole == ROUNDS && seen.wrong == 0 && seen.lost == 0);
    Ok(())
}

/// Creates three bodies in boxes that touch one another.
fn put_three<R: Wait>(rt: &R, world: &World, pass: &mut Pass) -> Option<()>
    requires idle { IsIdle world.now pass.old }
    requires layers { 0 < world.now.map.layers }
    ensures idle { IsIdle world.now pass.new }
{
    put(rt, world, pass, [0, 0, 0], [1, 1, 1])?;
    put(rt, world, pass, [1, 1, 1], [2, 2, 2])?;
    put(rt, world, pass, [2, 2, 2], [3, 3, 3])?;
    Some(())
}

/// Moves a body to and fro, round after round, from one end of space to the other. It answers how often it was moved.
fn wander<R: Wait>(rt: &R, world: &World, pass: Pass, id: BodyId, near: FixBox, far: FixBox) -> u32
    requires idle { IsIdle world.now pass }
    requires below { id.index < world.now.map.bodies }
{
    let mut pass = pass;
    let mut moved = 0u32;
    for round in 0..ROUNDS {
        let to = if round % 2 == 0 { far } else { near };
        if move_body(rt, world, &mut pass, id, to).is_ok() {
            moved = moved.wrapping_add(1);
        }
    }
    moved
}

/// Two threads that move a body each.
fn two_wander<R: Threads + Wait + Sync>(
    rt: &R,
    world: &World,
    first: Pass,
    second: Pass,
    one: BodyId,
    other: BodyId,
    near: FixBox,
    far: FixBox,
) -> (u32, u32)
    requires first { IsIdle world.now first }
    requires second { IsIdle world.now second }
    requires one_below { one.index < world.now.map.bodies }
    requires other_below { other.index < world.now.map.bodies }
{
    join(
        rt,
        || wander(rt, world, first, one, near, far),
        || wander(rt, world, second, other, near, far),
    )
}

#[test]
fn a_query_beside_moves_finds_what_nobody_moves(rt: HostRuntime) -> Result<(), Fail> {
    let alloc = rt.alloc();
    let Some((world, mut first, second, third)) = open_three(alloc) else {
        panic!(rt; "no world")
    };
    let (Some(near), Some(far)) = (
        between([0, 0, 0], [3, 3, 3]),
        between([8_000_000, 0, 0], [8_000_003, 3, 3]),
    ) else {
        panic!(rt; "no box")
    };
    assert!(rt; put_three(&rt, &world, &mut first) == Some(()));
    let ids = [BodyId::new(0, 1), BodyId::new(1, 1), BodyId::new(2, 1)];
    assert!(rt; add(&rt, alloc, &world, &mut first, &ids));
    let finder = Finder::new(alloc, 8)?;
    let (seen, moved) = join(
        &rt,
        || watch(&rt, &world, first, finder, near),
        ||
            requires second { IsIdle world second }
            requires third { IsIdle world third }
            requires bodies { world.map.bodies ≡ 8 }
        {
            two_wander(
                &rt,
                &world,
                second,
                third,
                BodyId::new(1, 1),
                BodyId::new(2, 1),
                near,
                far,
            )
        },
    );
    assert!(rt; moved == (ROUNDS, ROUNDS));
    assert!(rt; seen.whole == ROUNDS);
    Ok(())
}
