//! Worlds and passes: opening, locks, and operations that go turn by turn.
ghost use Rattle.std.specs.Prelude.{◌≡◌};
ghost use Rattle.pass_table.specs.Trying.{Leaves, with_taken};
ghost use Rattle.pass_table.specs.Passes.{view_of, IsOf, IsIdle};
ghost use Rattle.core_state.specs.View.{HoldsNot};
ghost use Rattle.word_map.specs.Names.{IsName};
ghost use Rattle.word_map.specs.declared.name.Name.TheVariants.{Lock};

use crate::look_twice::LookTwice;
use crate::opened::{open_three, pair_sizes, sizes};
use core_state::Mode;
use pass_table::{
    Label, OpenFault, Operation, Pass, Take, TakeOp, Turn, World, drive, open_world, release,
    take_write, try_take,
};
use std::sync::Wait;
use std::test::Fail;
use std::thread::join;
use word_map::Field;

#[test]
fn other_sizes_are_refused(rt: HostRuntime) -> Result<(), Fail> {
    let stripes = open_world(rt.alloc(), pair_sizes(4, 3, 1, 4));
    let Err(OpenFault::BadConfig { field }) = stripes else {
        panic!(rt; "three stripes were taken")
    };
    assert!(rt; field == Field::Stripes);
    // The first field that is out of its limit is named, though the stripes are still three.
    let bodies = open_world(rt.alloc(), pair_sizes(0, 3, 1, 4));
    let Err(OpenFault::BadConfig { field }) = bodies else {
        panic!(rt; "no bodies were taken")
    };
    assert!(rt; field == Field::Bodies);
    let Ok((_world, mut list)) = open_world(rt.alloc(), pair_sizes(4, 2, 1, 4)) else {
        panic!(rt; "two stripes were refused")
    };
    assert!(rt; list.items().len() == 2 && list.next().is_some());
    Ok(())
}

#[test]
fn a_world_opens_with_its_passes(rt: HostRuntime) -> Result<(), Fail> {
    let Ok((world, mut list)) = open_world(rt.alloc(), sizes(4, 2)) else {
        panic!(rt; "no world")
    };
    assert!(rt; world.config() == sizes(4, 2));
    for number in 0..3 {
        let Some(pass) = list.next() else {
            panic!(rt; "too few passes")
        };
        assert!(rt; pass.number() == number && pass.is_idle());
    }
    assert!(rt; list.next().is_none());
    Ok(())
}

#[test]
fn a_writer_excludes_a_reader(rt: HostRuntime) -> Result<(), Fail> {
    let Some((world, mut first, mut second, _third)) = open_three(rt.alloc(), sizes(4, 2)) else {
        panic!(rt; "no world")
    };
    take_write(&rt, &world, &mut second, 0);
    let busy = Take::Busy {
        lock: 0,
        word: 8_589_934_592,
    };
    assert!(rt; try_take(&world, &mut first, 0, false) == busy);
    assert!(rt; !second.is_idle());
    Ok(())
}

/// Takes lock 0 to write and lets it go.
fn round<R: Wait>(rt: &R, world: &World, pass: &mut Pass)
    requires idle { IsIdle world.now pass.old }
    ensures idle { IsIdle world.now pass.new }
{
    take_write(rt, world, pass, 0);
    release(world, pass, 0);
}

/// The same, 1,000 times. Answers the number of the pass.
fn rounds<R: Wait>(rt: &R, world: &World, pass: Pass) -> u32
    requires idle { IsIdle world.now pass }
{
    let mut pass = pass;
    for _ in 0..1000 {
        round(rt, world, &mut pass);
    }
    pass.number()
}

#[test]
fn two_threads_take_one_lock(rt: HostRuntime) -> Result<(), Fail> {
    let Some((world, first, second, _third)) = open_three(rt.alloc(), sizes(4, 2)) else {
        panic!(rt; "no world")
    };
    let ended = join(
        &rt,
        || rounds(&rt, &world, first),
        || rounds(&rt, &world, second),
    );
    assert!(rt; ended == (0, 1));
    Ok(())
}

#[test]
fn a_pass_that_meets_another_goes_on(rt: HostRuntime) -> Result<(), Fail> {
    let Some((world, mut first, mut second, _third)) = open_three(rt.alloc(), sizes(4, 2)) else {
        panic!(rt; "no world")
    };
    take_write(&rt, &world, &mut second, 1);
    first.meet(&world, &mut second);
    first.look(&world);
    assert!(rt; first.is_idle() && !second.is_idle());
    Ok(())
}

#[test]
fn a_lock_is_taken_in_two_turns(rt: HostRuntime) -> Result<(), Fail> {
    let Some((world, mut first, mut second, _third)) = open_three(rt.alloc(), sizes(4, 2)) else {
        panic!(rt; "no world")
    };
    let mut taking = TakeOp::new(&world, &mut first, 0, Mode::Read);
    let Turn::More = taking.turn(&world, &mut first) else {
        panic!(rt; "the load was the last turn")
    };
    first.look(&world);
    first.meet(&world, &mut second);
    assert!(rt; taking.label().is_none() && taking.made().is_none());
    let Turn::Done(()) = taking.turn(&world, &mut first) else {
        panic!(rt; "the lock was not taken")
    };
    assert!(rt; !first.is_idle());
    Ok(())
}

/// Takes a lock by turns, in one call.
fn take_by_turns<R: Wait>(rt: &R, world: &World, pass: &mut Pass, lock: u32, mode: Mode)
    requires of { IsOf world.now pass.old }
    requires named { IsName world.now.map (Lock lock) }
    requires free { HoldsNot (view_of pass.old) lock }
    ensures of { IsOf world.now pass.new }
    ensures left { Leaves (view_of pass.old) (view_of pass.new) (with_taken (view_of pass.old) lock mode) }
{
    let mut taking = TakeOp::new(world, pass, lock, mode);
    drive(rt, world, pass, &mut taking);
}

#[test]
fn a_lock_is_taken_by_turns_in_one_call(rt: HostRuntime) -> Result<(), Fail> {
    let Some((world, mut first, mut second, _third)) = open_three(rt.alloc(), sizes(4, 2)) else {
        panic!(rt; "no world")
    };
    take_by_turns(&rt, &world, &mut first, 0, Mode::Read);
    let busy = Take::Busy { lock: 0, word: 1 };
    assert!(rt; try_take(&world, &mut second, 0, true) == busy);
    Ok(())
}

#[test]
fn an_exchange_by_turns_is_lost(rt: HostRuntime) -> Result<(), Fail> {
    let Some((world, mut first, mut second, _third)) = open_three(rt.alloc(), sizes(4, 2)) else {
        panic!(rt; "no world")
    };
    let mut taking = TakeOp::new(&world, &mut first, 0, Mode::Read);
    let Turn::More = taking.turn(&world, &mut first) else {
        panic!(rt; "the load was the last turn")
    };
    take_by_turns(&rt, &world, &mut second, 0, Mode::Read);
    let Turn::More = taking.turn(&world, &mut first) else {
        panic!(rt; "the lock was taken over another one")
    };
    drive(&rt, &world, &mut first, &mut taking);
    assert!(rt; !first.is_idle());
    Ok(())
}

#[test]
fn labels_are_reached_in_order(rt: HostRuntime) -> Result<(), Fail> {
    let Some((world, mut first, _second, _third)) = open_three(rt.alloc(), sizes(4, 2)) else {
        panic!(rt; "no world")
    };
    let mut looking = LookTwice { looks: 0 };
    let (middle, last) = (Label::new(1), Label::new(2));
    assert!(rt; looking.label().is_none() && middle < last && last.number() == 2);
    drive(&rt, &world, &mut first, &mut looking);
    assert!(rt; looking.label() == Some(last));
    Ok(())
}
