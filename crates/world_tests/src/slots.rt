//! Bodies come and go: the answers of create and destroy, one after the other and beside each other.
ghost use Rattle.std.specs.Prelude.{◌≡◌, ◌<◌};
ghost use Rattle.pass_table.specs.Passes.{IsIdle};

use crate::bodies::{create_body, create_first, destroy_body};
use crate::guards::user_of;
use crate::opened::{open_three, sizes};
use body_ident::BodyId;
use body_slots::{DestroyRefused, Full};
use pass_table::{Pass, World};
use std::alloc::{AllocError, Global};
use std::sync::Wait;
use std::test::Fail;
use std::thread::join;

#[test]
fn an_id_of_before_is_gone(rt: HostRuntime) -> Result<(), Fail> {
    let Some((world, mut pass, _second, _third)) = open_three(rt.alloc(), sizes(4, 2)) else {
        panic!(rt; "no world")
    };
    let (first, second) = (BodyId::new(0, 1), BodyId::new(0, 2));
    assert!(rt; create_body(&rt, &world, &mut pass, 7) == Ok(first));
    assert!(rt; destroy_body(&rt, &world, &mut pass, first).is_ok());
    assert!(rt; create_body(&rt, &world, &mut pass, 7) == Ok(second));
    let gone = destroy_body(&rt, &world, &mut pass, first);
    assert!(rt; gone == Err(DestroyRefused::Gone { state: 258 }));
    Ok(())
}

#[test]
fn the_index_freed_last_is_used_first(rt: HostRuntime) -> Result<(), Fail> {
    let Some((world, mut pass, _second, _third)) = open_three(rt.alloc(), sizes(4, 2)) else {
        panic!(rt; "no world")
    };
    assert!(rt; create_first(&rt, &world, &mut pass, 3));
    assert!(rt; destroy_body(&rt, &world, &mut pass, BodyId::new(0, 1)).is_ok());
    assert!(rt; destroy_body(&rt, &world, &mut pass, BodyId::new(2, 1)).is_ok());
    assert!(rt; create_body(&rt, &world, &mut pass, 7) == Ok(BodyId::new(2, 2)));
    assert!(rt; create_body(&rt, &world, &mut pass, 7) == Ok(BodyId::new(0, 2)));
    assert!(rt; create_body(&rt, &world, &mut pass, 7) == Ok(BodyId::new(3, 1)));
    Ok(())
}

/// Creates a body at index 0, with the number of the creation as its user number, and destroys it, 256 times. Answers whether
/// each had the next sequence number.
fn go_round<R: Wait>(rt: &R, world: &World, pass: &mut Pass) -> bool
    requires idle { IsIdle world.now pass.old }
    requires layers { 0 < world.now.map.layers }
    requires some { 0 < world.now.map.bodies }
    ensures idle { IsIdle world.now pass.new }
{
    let mut all = true;
    for round in 1..257u32 {
        let id = BodyId::new(0, (round % 256) as u8);
        all &= create_body(rt, world, pass, round) == Ok(id);
        all &= destroy_body(rt, world, pass, id).is_ok();
    }
    all
}

#[test]
fn sequence_numbers_come_round(rt: HostRuntime) -> Result<(), Fail> {
    let Some((world, mut pass, _second, _third)) = open_three(rt.alloc(), sizes(1, 2)) else {
        panic!(rt; "no world")
    };
    let first = BodyId::new(0, 1);
    assert!(rt; go_round(&rt, &world, &mut pass));
    assert!(rt; create_body(&rt, &world, &mut pass, 257) == Ok(first));
    // The id of the first body names the last one.
    assert!(rt; user_of(&rt, &world, &mut pass, first) == Ok(257));
    Ok(())
}

#[test]
fn a_full_world_refuses(rt: HostRuntime) -> Result<(), Fail> {
    let Some((world, mut pass, _second, _third)) = open_three(rt.alloc(), sizes(1, 2)) else {
        panic!(rt; "no world")
    };
    let (first, second) = (BodyId::new(0, 1), BodyId::new(0, 2));
    assert!(rt; create_body(&rt, &world, &mut pass, 7) == Ok(first));
    assert!(rt; create_body(&rt, &world, &mut pass, 7) == Err(Full { head: 0 }));
    assert!(rt; destroy_body(&rt, &world, &mut pass, first).is_ok());
    assert!(rt; create_body(&rt, &world, &mut pass, 7) == Ok(second));
    Ok(())
}

/// What a thread was answered: the bodies that it created, and those of them that it destroyed.
#[derive(Drop)]
struct Answered {
    created: Vec<BodyId>,
    destroyed: Vec<BodyId>,
}

/// Creates a body, and destroys it again if it is not to be kept. Answers its id, and whether it was destroyed.
fn create_for<R: Wait>(
    rt: &R,
    world: &World,
    pass: &mut Pass,
    keeps: bool,
) -> Option<(BodyId, bool)>
    requires idle { IsIdle world.now pass.old }
    requires layers { 0 < world.now.map.layers }
    ensures idle { IsIdle world.now pass.new }
{
    let id = create_body(rt, world, pass, 7).ok()?;
    if keeps {
        return Some((id, false));
    }
    Some((id, destroy_body(rt, world, pass, id).is_ok()))
}

/// Creates 60 bodies, and destroys all but each tenth of them again.
fn rounds<R: Wait>(rt: &R, alloc: Global, world: &World, pass: Pass) -> Result<Answered, AllocError>
    requires idle { IsIdle world.now pass }
    requires layers { 0 < world.now.map.layers }
{
    let mut pass = pass;
    let mut created = Vec::with_capacity(alloc, 60)?;
    let mut destroyed = Vec::with_capacity(alloc, 60)?;
    for round in 0..60 {
        if let Some((id, gone)) = create_for(rt, world, &mut pass, round % 10 == 0) {
            created.push(id)?;
            if gone {
                destroyed.push(id)?;
            }
        }
    }
    Ok(Answered { created, destroyed })
}

fn count(ids: &[BodyId], id: BodyId) -> usize {
    ids.iter().filter(|other| **other == id).count()
}

fn at_index(ids: &[BodyId], index: u32) -> usize {
    ids.iter().filter(|other| other.index() == index).count()
}

/// Whether of the creations at the index over both threads there was one with each number from 1 on.
fn are_in_order(first: &Answered, second: &Answered, index: u32) -> bool
    requires { index < 16 }
{
    let (one, other) = (first.created.as_slice(), second.created.as_slice());
    let creations = at_index(one, index).saturating_add(at_index(other, index));
    (1..=255).take(creations).all(|seq| {
        let id = BodyId::new(index, seq);
        count(one, id).saturating_add(count(other, id)) == 1
    })
}

/// Whether the bodies that were created and not destroyed are live, and no others.
fn are_live<R: Wait>(rt: &R, world: &World, pass: &mut Pass, answered: &Answered) -> bool
    requires idle { IsIdle world.now pass.old }
    requires bodies { world.now.map.bodies ≡ 16 }
    ensures idle { IsIdle world.now pass.new }
{
    let mut all = true;
    for id in answered.created.as_slice() {
        let gone = count(answered.destroyed.as_slice(), *id) == 1;
        all &= id.index() < 16 && destroy_body(rt, world, pass, *id).is_err() == gone;
    }
    all
}

#[test]
fn two_threads_create_and_destroy(rt: HostRuntime) -> Result<(), Fail> {
    let Some((world, first, second, mut third)) = open_three(rt.alloc(), sizes(16, 2)) else {
        panic!(rt; "no world")
    };
    let alloc = rt.alloc();
    let (one, other) = join(
        &rt,
        || rounds(&rt, alloc, &world, first),
        || rounds(&rt, alloc, &world, second),
    );
    let (one, other) = (one?, other?);
    assert!(rt; one.created.len() == 60 && other.created.len() == 60);
    assert!(rt; (0..16).all(|index| are_in_order(&one, &other, index)));
    assert!(rt; are_live(&rt, &world, &mut third, &one));
    assert!(rt; are_live(&rt, &world, &mut third, &other));
    Ok(())
}
