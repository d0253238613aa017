//! Batches on a world: the answers that the calls give one after the other, and beside each other.
ghost use Rattle.std.specs.Prelude.{◌≡◌, ◌<◌, ◌≤◌, length, All, IfOk};
ghost use Rattle.pass_table.specs.Passes.{view_of, IsOf, IsIdle};
ghost use Rattle.batch_add.specs.Prepared.{IsGood};

use crate::bodies::{create_body, create_first, destroy_body};
use crate::held_batches::{
    attach, batch_sizes, drop_batch, hold, is_held_second, is_without, is_without_nodes,
    is_without_slot,
};
use crate::opened::{open_three, open_two, pair_sizes};
use batch_add::{PrepareOp, PrepareRefused, Prepared};
use body_ident::BodyId;
use body_slots::DestroyRefused;
use pass_table::{Operation, Pass, Turn, World};
use scene_model::{Entry, Made, Phase};
use std::alloc::Global;
use std::sync::Wait;
use std::test::Fail;
use std::thread::join;

#[test]
fn a_body_is_held_then_out_then_in(rt: HostRuntime) -> Result<(), Fail> {
    let alloc = rt.alloc();
    let Some((world, mut pass, _second, _third)) = open_three(alloc, batch_sizes(2, 4)) else {
        panic!(rt; "no world")
    };
    let id = BodyId::new(0, 1);
    assert!(rt; create_body(&rt, &world, &mut pass, 7) == Ok(id));
    let Ok(batch) = hold(&rt, alloc, &world, &mut pass, &[id]) else {
        panic!(rt; "not prepared")
    };
    drop_batch(&rt, &world, &mut pass, batch);
    let Ok(batch) = hold(&rt, alloc, &world, &mut pass, &[id]) else {
        panic!(rt; "not prepared again")
    };
    attach(&world, &mut pass, batch);
    let joined = destroy_body(&rt, &world, &mut pass, id);
    assert!(rt; joined == Err(DestroyRefused::InUse { phase: Phase::In }));
    Ok(())
}

#[test]
fn the_slot_of_a_batch_is_its_own(rt: HostRuntime) -> Result<(), Fail> {
    let alloc = rt.alloc();
    let Some((world, mut pass, mut other, _third)) = open_three(alloc, batch_sizes(1, 4)) else {
        panic!(rt; "no world")
    };
    let (a, b) = (BodyId::new(0, 1), BodyId::new(1, 1));
    assert!(rt; create_first(&rt, &world, &mut pass, 2));
    let Ok(batch) = hold(&rt, alloc, &world, &mut pass, &[a]) else {
        panic!(rt; "not prepared")
    };
    let refused = is_without_slot(hold(&rt, alloc, &world, &mut other, &[b]), &[1]);
    drop_batch(&rt, &world, &mut pass, batch);
    assert!(rt; refused);
    let Ok(batch) = hold(&rt, alloc, &world, &mut other, &[b]) else {
        panic!(rt; "the slot was not let go")
    };
    attach(&world, &mut other, batch);
    Ok(())
}

#[test]
fn nodes_are_wanting_until_a_batch_is_given_up(rt: HostRuntime) -> Result<(), Fail> {
    let alloc = rt.alloc();
    let Some((world, mut pass, mut other)) = open_two(alloc, pair_sizes(4, 1, 2, 1)) else {
        panic!(rt; "no world")
    };
    let (a, b) = (BodyId::new(0, 1), BodyId::new(1, 1));
    assert!(rt; create_first(&rt, &world, &mut pass, 2));
    let Ok(batch) = hold(&rt, alloc, &world, &mut pass, &[a, b]) else {
        panic!(rt; "not prepared")
    };
    other.look(&world);
    let refused = is_without_nodes(hold(&rt, alloc, &world, &mut other, &[a]), 1, 0);
    drop_batch(&rt, &world, &mut pass, batch);
    assert!(rt; refused);
    other.meet(&world, &mut pass);
    let Ok(batch) = hold(&rt, alloc, &world, &mut other, &[a]) else {
        panic!(rt; "the node was not given back")
    };
    attach(&world, &mut other, batch);
    assert!(rt; is_in(&rt, &world, &mut pass, a));
    Ok(())
}

#[test]
fn slots_and_nodes_are_taken_from_the_first_on(rt: HostRuntime) -> Result<(), Fail> {
    let alloc = rt.alloc();
    let Some((world, mut pass, mut other, mut third)) = open_three(alloc, batch_sizes(2, 3)) else {
        panic!(rt; "no world")
    };
    assert!(rt; create_first(&rt, &world, &mut pass, 6));
    let ids = [
        BodyId::new(0, 1),
        BodyId::new(1, 1),
        BodyId::new(2, 1),
        BodyId::new(3, 1),
        BodyId::new(4, 1),
    ];
    let Ok(five) = hold(&rt, alloc, &world, &mut pass, &ids) else {
        panic!(rt; "two nodes were not taken")
    };
    let few = is_without_nodes(hold(&rt, alloc, &world, &mut third, &ids), 2, 1);
    let one = hold(&rt, alloc, &world, &mut other, &[BodyId::new(5, 1)]);
    let held = is_without_slot(hold(&rt, alloc, &world, &mut third, &ids), &[1, 2]);
    attach(&world, &mut pass, five);
    let Ok(one) = one else {
        panic!(rt; "the last node was not taken")
    };
    attach(&world, &mut other, one);
    assert!(rt; few && held);
    // The roots are the nodes 0 and 2, so the tree of five bodies has the nodes 0 and 1.
    let last = hold(&rt, alloc, &world, &mut third, &ids);
    assert!(rt; is_without_slot(last, &[1024, 1026]));
    Ok(())
}

#[test]
fn a_pass_prepares_two_batches(rt: HostRuntime) -> Result<(), Fail> {
    let alloc = rt.alloc();
    let Some((world, mut pass, _second, _third)) = open_three(alloc, batch_sizes(2, 2)) else {
        panic!(rt; "no world")
    };
    assert!(rt; create_first(&rt, &world, &mut pass, 2));
    let (a, b) = (BodyId::new(0, 1), BodyId::new(1, 1));
    let Ok(first) = hold(&rt, alloc, &world, &mut pass, &[a]) else {
        panic!(rt; "not prepared")
    };
    first.leave();
    let Ok(second) = hold(&rt, alloc, &world, &mut pass, &[b]) else {
        panic!(rt; "the second was not prepared")
    };
    second.leave();
    let last = hold(&rt, alloc, &world, &mut pass, &[a]);
    assert!(rt; is_without_slot(last, &[1, 1]));
    Ok(())
}

#[test]
fn a_body_that_is_held_is_not_marked(rt: HostRuntime) -> Result<(), Fail> {
    let alloc = rt.alloc();
    let Some((world, mut pass, mut other, _third)) = open_three(alloc, batch_sizes(2, 4)) else {
        panic!(rt; "no world")
    };
    let (a, b) = (BodyId::new(0, 1), BodyId::new(1, 1));
    assert!(rt; create_first(&rt, &world, &mut pass, 2));
    let Ok(batch) = hold(&rt, alloc, &world, &mut pass, &[a]) else {
        panic!(rt; "not prepared")
    };
    let refused = is_held_second(hold(&rt, alloc, &world, &mut other, &[b, a]));
    let free = destroy_body(&rt, &world, &mut other, b).is_ok();
    attach(&world, &mut pass, batch);
    assert!(rt; refused);
    assert!(rt; free);
    Ok(())
}

/// Prepares a batch of a body and gives it up, 40 times, and then prepares it once more and attaches it. Answers how often it
/// was prepared, and whether it is attached.
fn rounds<R: Wait>(rt: &R, alloc: Global, world: &World, pass: Pass, id: BodyId) -> (u32, bool)
    requires idle { IsIdle world.now pass }
    requires layers { 0 < world.now.map.layers }
    requires below { id.index < world.now.map.bodies }
{
    let mut pass = pass;
    let mut prepared = 0u32;
    for _ in 0..40 {
        if let Ok(batch) = hold(rt, alloc, world, &mut pass, &[id]) {
            drop_batch(rt, world, &mut pass, batch);
            prepared = prepared.saturating_add(1);
        }
    }
    match hold(rt, alloc, world, &mut pass, &[id]) {
        Ok(batch) => {
            attach(world, &mut pass, batch);
            (prepared, true)
        }
        Err(_) => (prepared, false),
    }
}

/// Whether a body is in the broad phase.
fn is_in<R: Wait>(rt: &R, world: &World, pass: &mut Pass, id: BodyId) -> bool
    requires idle { IsIdle world.now pass.old }
    requires below { id.index < world.now.map.bodies }
    ensures idle { IsIdle world.now pass.new }
{
    destroy_body(rt, world, pass, id) == Err(DestroyRefused::InUse { phase: Phase::In })
}

#[test]
fn two_threads_prepare_beside_each_other(rt: HostRuntime) -> Result<(), Fail> {
    let alloc = rt.alloc();
    let Some((world, mut pass, first, second)) = open_three(alloc, batch_sizes(3, 3)) else {
        panic!(rt; "no world")
    };
    let ids = [BodyId::new(0, 1), BodyId::new(1, 1), BodyId::new(2, 1)];
    assert!(rt; create_first(&rt, &world, &mut pass, 3));
    let (one, other) = join(
        &rt,
        || rounds(&rt, alloc, &world, first, ids[0]),
        || rounds(&rt, alloc, &world, second, ids[1]),
    );
    assert!(rt; one == (40, true) && other == (40, true));
    assert!(rt; is_in(&rt, &world, &mut pass, ids[0]));
    assert!(rt; is_in(&rt, &world, &mut pass, ids[1]));
    // One slot and one node are left, and no more.
    let Ok(batch) = hold(&rt, alloc, &world, &mut pass, &[ids[2]]) else {
        panic!(rt; "a slot or a node was lost")
    };
    attach(&world, &mut pass, batch);
    assert!(rt; create_body(&rt, &world, &mut pass, 7) == Ok(BodyId::new(3, 1)));
    let last = hold(&rt, alloc, &world, &mut pass, &[BodyId::new(3, 1)]);
    assert!(rt; is_without(last, [1024, 1025, 1026]));
    Ok(())
}

/// What a turn tells of its entry.
#[derive(Clone, Copy, PartialEq, Eq)]
enum SeenEntry {
    Nothing,
    Mark(u32),
    Unmark(u32),
    Other,
}

/// The first two entries that turns told, in order. Where there were more, both are `Other`.
#[derive(Clone, Copy, PartialEq, Eq)]
struct SeenEntries {
    first: SeenEntry,
    second: SeenEntry,
}

/// Prepares a batch in layer 0 turn by turn. Answers the entries that the turns tell, the first two in order and nothing else
/// where there are more, and whether it was refused since the second body is held.
fn hold_by_turns(
    alloc: Global,
    world: &World,
    pass: &mut Pass,
    ids: &[BodyId],
) -> Option<(SeenEntries, bool)>
    requires idle { IsIdle world.now pass.old }
    requires layers { 0 < world.now.map.layers }
    requires below { All (λ id. id.index < world.now.map.bodies) ids.now }
    requires few { length ids.now ≤ world.now.map.bodies }
    ensures of { IsOf world.now pass.new }
{
    let Ok(mut preparing) = PrepareOp::new(alloc, world, pass, 0, ids) else {
        return None;
    };
    let mut entries = SeenEntries {
        first: SeenEntry::Nothing,
        second: SeenEntry::Nothing,
    };
    for _ in 0..200 {
        match preparing.turn(world, pass) {
            Turn::Done(answer) => return Some((entries, is_held_second(answer))),
            Turn::Again { .. } => return None,
            Turn::More => entries = and_then(entries, told(preparing.made())),
        }
    }
    None
}

/// What a turn tells.
fn told(made: Option<&Made>) -> SeenEntry {
    match made {
        None => SeenEntry::Nothing,
        Some(made) => match made.entry {
            Entry::Mark { index } => SeenEntry::Mark(index),
            Entry::Unmark { index } => SeenEntry::Unmark(index),
            _ => SeenEntry::Other,
        },
    }
}

/// The entries so far, and one that comes after them.
fn and_then(entries: SeenEntries, next: SeenEntry) -> SeenEntries {
    match (entries.first, entries.second, next) {
        (_, _, SeenEntry::Nothing) => entries,
        (SeenEntry::Nothing, _, _) => SeenEntries {
            first: next,
            second: SeenEntry::Nothing,
        },
        (first, SeenEntry::Nothing, _) => SeenEntries {
            first,
            second: next,
        },
        _ => SeenEntries {
            first: SeenEntry::Other,
            second: SeenEntry::Other,
        },
    }
}

#[test]
fn marks_of_a_refused_batch_are_taken_back(rt: HostRuntime) -> Result<(), Fail> {
    let alloc = rt.alloc();
    let Some((world, mut pass, mut other)) = open_two(alloc, pair_sizes(4, 1, 2, 4)) else {
        panic!(rt; "no world")
    };
    let (a, b) = (BodyId::new(0, 1), BodyId::new(1, 1));
    assert!(rt; create_first(&rt, &world, &mut pass, 2));
    let Ok(batch) = hold(&rt, alloc, &world, &mut pass, &[a]) else {
        panic!(rt; "not prepared")
    };
    other.look(&world);
    let seen = hold_by_turns(alloc, &world, &mut other, &[b, a]);
    attach(&world, &mut pass, batch);
    let undone = SeenEntries {
        first: SeenEntry::Mark(1),
        second: SeenEntry::Unmark(1),
    };
    assert!(rt; seen == Some((undone, true)));
    assert!(rt; destroy_body(&rt, &world, &mut pass, b).is_ok());
    Ok(())
}

/// Prepares a batch, and once more if there was not enough memory. Under `rt try --test --fail-alloc N` some allocation fails.
fn hold_again<R: Wait>(
    rt: &R,
    alloc: Global,
    world: &World,
    pass: &mut Pass,
    ids: &[BodyId],
) -> Result<Prepared, PrepareRefused>
    requires idle { IsIdle world.now pass.old }
    requires layers { 0 < world.now.map.layers }
    requires below { All (λ id. id.index < world.now.map.bodies) ids.now }
    requires few { length ids.now ≤ world.now.map.bodies }
    ensures idle { IsIdle world.now pass.new }
    ensures good { IfOk result (λ batch. IsGood batch (view_of pass.new)) }
{
    match hold(rt, alloc, world, pass, ids) {
        Err(PrepareRefused::Memory) => hold(rt, alloc, world, pass, ids),
        answer => answer,
    }
}

#[test]
fn a_batch_is_prepared_once_there_is_memory(rt: HostRuntime) -> Result<(), Fail> {
    let alloc = rt.alloc();
    let Some((world, mut pass, _second, _third)) = open_three(alloc, batch_sizes(1, 4)) else {
        panic!(rt; "no world")
    };
    let id = BodyId::new(0, 1);
    assert!(rt; create_body(&rt, &world, &mut pass, 7) == Ok(id));
    let Ok(batch) = hold_again(&rt, alloc, &world, &mut pass, &[id]) else {
        panic!(rt; "not prepared")
    };
    attach(&world, &mut pass, batch);
    assert!(rt; is_in(&rt, &world, &mut pass, id));
    Ok(())
}
