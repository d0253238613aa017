//! Locks on bodies: of those that never were, of those that are created and destroyed, and by two threads at once.
ghost use Rattle.std.specs.Prelude.{◌≡◌, ◌<◌, All};
ghost use Rattle.pass_table.specs.Passes.{IsIdle};

use crate::bodies::{create_body, create_first, destroy_body};
use crate::opened::{open_three, sizes};
use body_ident::BodyId;
use body_lock::{Gone, MultiEntry, lock_multi, lock_read, lock_write};
use pass_table::{Pass, World};
use scene_model::Phase;
use std::sync::Wait;
use std::test::Fail;
use std::thread::join;

/// Locks the bodies at the first three indexes and lets them go, 1,000 times. Answers the number of the pass.
fn rounds<R: Wait>(rt: &R, world: &World, pass: Pass, ids: &[BodyId; 3], write: bool) -> u32
    requires idle { IsIdle world.now pass }
    requires below { All (λ id. id.index < world.now.map.bodies) ids.now }
{
    let mut pass = pass;
    for _ in 0..1000 {
        let guard = lock_multi(rt, world, &mut pass, ids, write);
        guard.unlock(world, &mut pass);
    }
    pass.number()
}

#[test]
fn two_threads_lock_in_different_orders(rt: HostRuntime) -> Result<(), Fail> {
    let Some((world, first, second, _third)) = open_three(rt.alloc(), sizes(8, 8)) else {
        panic!(rt; "no world")
    };
    let up = [BodyId::new(1, 1), BodyId::new(2, 1), BodyId::new(5, 1)];
    let down = [BodyId::new(5, 1), BodyId::new(2, 1), BodyId::new(0, 1)];
    let ended = join(
        &rt,
        || rounds(&rt, &world, first, &up, true),
        || rounds(&rt, &world, second, &down, false),
    );
    assert!(rt; ended == (0, 1));
    Ok(())
}

#[test]
fn a_body_that_never_was_is_gone(rt: HostRuntime) -> Result<(), Fail> {
    let Some((world, mut pass, _second, _third)) = open_three(rt.alloc(), sizes(4, 2)) else {
        panic!(rt; "no world")
    };
    match lock_read(&rt, &world, &mut pass, BodyId::new(0, 1)) {
        Ok(guard) => {
            guard.unlock(&world, &mut pass);
            panic!(rt; "it was there")
        }
        Err(gone) => assert!(rt; gone == Gone { state: 0 }),
    }
    assert!(rt; pass.is_idle());
    Ok(())
}

/// Locks 64 bodies that never were, the one with the last index first, and lets them go.
fn lock_64<R: Wait>(rt: &R, world: &World, pass: &mut Pass) -> bool
    requires idle { IsIdle world.now pass.old }
    requires bodies { world.now.map.bodies ≡ 64 }
{
    let mut ids = [BodyId::new(0, 1); 64];
    for index in 0..64u32 {
        ids[index as usize] = BodyId::new(63 - index, 1);
    }
    let guard = lock_multi(rt, world, pass, &ids, false);
    let mut all = guard.len() == 64;
    for k in 0..guard.len() {
        all = all && guard.entry(k) == MultiEntry::Gone { state: 0 };
    }
    guard.unlock(world, pass);
    all
}

#[test]
fn bodies_of_one_stripe_are_locked(rt: HostRuntime) -> Result<(), Fail> {
    let Some((world, mut pass, _second, _third)) = open_three(rt.alloc(), sizes(64, 1)) else {
        panic!(rt; "no world")
    };
    assert!(rt; lock_64(&rt, &world, &mut pass) && pass.is_idle());
    Ok(())
}

#[test]
fn bodies_of_all_stripes_are_locked(rt: HostRuntime) -> Result<(), Fail> {
    let Some((world, mut pass, _second, _third)) = open_three(rt.alloc(), sizes(64, 64)) else {
        panic!(rt; "no world")
    };
    assert!(rt; lock_64(&rt, &world, &mut pass) && pass.is_idle());
    Ok(())
}

/// The user number of the body, where it is live.
pub(crate) fn user_of<R: Wait>(
    rt: &R,
    world: &World,
    pass: &mut Pass,
    id: BodyId,
) -> Result<u32, Gone>
    requires idle { IsIdle world.now pass.old }
    requires below { id.index < world.now.map.bodies }
    ensures idle { IsIdle world.now pass.new }
{
    let guard = lock_read(rt, world, pass, id)?;
    let view = guard.view(world, pass);
    guard.unlock(world, pass);
    Ok(view.user)
}

/// Gives the body another user number under its lock. Answers whether it was seen out of the broad phase before, and with
/// the new number after.
fn renumbers<R: Wait>(rt: &R, world: &World, pass: &mut Pass, id: BodyId, user: u32) -> bool
    requires idle { IsIdle world.now pass.old }
    requires below { id.index < world.now.map.bodies }
    ensures idle { IsIdle world.now pass.new }
{
    let Ok(mut guard) = lock_write(rt, world, pass, id) else {
        return false;
    };
    let before = guard.view(world, pass);
    guard.set_user(world, pass, user);
    let after = guard.view(world, pass);
    guard.unlock(world, pass);
    before.id == id && before.layer == 0 && before.phase == Phase::Out && after.user == user
}

/// Which of three bodies are reached by one lock.
fn reached<R: Wait>(rt: &R, world: &World, pass: &mut Pass, ids: &[BodyId; 3]) -> [MultiEntry; 3]
    requires idle { IsIdle world.now pass.old }
    requires below { All (λ id. id.index < world.now.map.bodies) ids.now }
    ensures idle { IsIdle world.now pass.new }
{
    let guard = lock_multi(rt, world, pass, ids, true);
    let entries = [guard.entry(0), guard.entry(1), guard.entry(2)];
    guard.unlock(world, pass);
    entries
}

#[test]
fn an_id_locks_its_body_alone(rt: HostRuntime) -> Result<(), Fail> {
    let Some((world, mut pass, _second, _third)) = open_three(rt.alloc(), sizes(4, 2)) else {
        panic!(rt; "no world")
    };
    let (first, second) = (BodyId::new(0, 1), BodyId::new(0, 2));
    assert!(rt; create_body(&rt, &world, &mut pass, 7) == Ok(first));
    assert!(rt; user_of(&rt, &world, &mut pass, first) == Ok(7));
    assert!(rt; destroy_body(&rt, &world, &mut pass, first).is_ok());
    assert!(rt; user_of(&rt, &world, &mut pass, first) == Err(Gone { state: 1 }));
    assert!(rt; create_body(&rt, &world, &mut pass, 8) == Ok(second));
    assert!(rt; user_of(&rt, &world, &mut pass, first) == Err(Gone { state: 258 }));
    assert!(rt; user_of(&rt, &world, &mut pass, second) == Ok(8));
    assert!(rt; renumbers(&rt, &world, &mut pass, second, 9));
    assert!(rt; user_of(&rt, &world, &mut pass, second) == Ok(9));
    Ok(())
}

#[test]
fn of_three_bodies_one_is_gone(rt: HostRuntime) -> Result<(), Fail> {
    let Some((world, mut pass, _second, _third)) = open_three(rt.alloc(), sizes(4, 2)) else {
        panic!(rt; "no world")
    };
    let ids = [BodyId::new(0, 1), BodyId::new(1, 1), BodyId::new(2, 1)];
    assert!(rt; create_first(&rt, &world, &mut pass, 3));
    assert!(rt; destroy_body(&rt, &world, &mut pass, BodyId::new(1, 1)).is_ok());
    let entries = reached(&rt, &world, &mut pass, &ids);
    assert!(rt;
        entries
            == [
                MultiEntry::Reached,
                MultiEntry::Gone { state: 1 },
                MultiEntry::Reached
            ]
    );
    Ok(())
}
