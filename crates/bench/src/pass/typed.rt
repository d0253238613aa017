//! Steps of a pass on the lock words of a world.
ghost use Rattle.std.specs.Prelude.{◌≡◌, ◌<◌, IfSome};
ghost use Rattle.core_state.specs.View.{IsPass};
ghost use Rattle.pass_table.specs.Holding.{IsAtRest};
ghost use Rattle.pass_table.specs.Opened.{IsFresh};
ghost use Rattle.pass_table.specs.Passes.{view_of, IsOf};

use super::work::Work;
use pass_table::{Pass, Take, World, open_world, release, step_5, step_7, step_8, try_take};
use std::alloc::Global;
use word_map::{Config, Name};

const SIZES: Config = Config {
    bodies: 4,
    stripes: 2,
    layers: 1,
    slots: 1,
    nodes: 4,
    passes: 2,
};

/// A world of these sizes and its first pass. `None` is want of memory.
pub(crate) fn open(alloc: Global, sizes: Config) -> Option<(World, Pass)>
    ensures { IfSome result (λ opened. IsFresh opened.0 0 opened.1) }
{
    let Ok((world, mut list)) = open_world(alloc, sizes) else {
        return None;
    };
    let pass = list.next()?;
    Some((world, pass))
}

/// A load of a lock word, of a lock that is free or under which the pass writes.
#[derive(Drop)]
pub(crate) struct TypedLoad {
    world: World,
    pass: Pass,
    ghost of: { IsOf world pass },
}

impl TypedLoad {
    /// `None` is want of memory.
    pub(crate) fn open(alloc: Global) -> Option<TypedLoad> {
        let (world, mut pass) = open(alloc, SIZES)?;
        if try_take(&world, &mut pass, 1, true) != Take::Taken {
            return None;
        }
        Some(TypedLoad { world, pass })
    }
}

impl Work for TypedLoad {
    #[inline(always)]
    fn round(&mut self, lock: u32) -> u64 {
        step_5(&self.world, &mut self.pass, Name::Lock(lock))
    }
}

/// Taking a lock to write, and where it was free letting it go.
#[derive(Drop)]
pub(crate) struct TypedPair {
    world: World,
    pass: Pass,
    number: u32,
    ghost of: { IsOf world pass },
    ghost rest: { IsAtRest (view_of pass) },
    ghost few: { number < 32 },
    ghost numbered: { IsPass (view_of pass) number },
}

impl TypedPair {
    /// `None` is want of memory.
    pub(crate) fn open(alloc: Global) -> Option<TypedPair> {
        let (world, pass) = open(alloc, SIZES)?;
        let number = pass.number();
        if number >= 32 {
            return None;
        }
        Some(TypedPair {
            world,
            pass,
            number,
        })
    }
}

/// Takes a lock to write that the pass does not hold, and lets it go. Answers the word found last.
#[inline(always)]
fn pair(world: &World, pass: &mut Pass, number: u32, lock: u32) -> u64
    requires of { IsOf world.now pass.old }
    requires rest { IsAtRest (view_of pass.old) }
    requires few { number < 32 }
    requires numbered { IsPass (view_of pass.old) number }
    requires lock { lock < 2 }
    ensures of { IsOf world.now pass.new }
    ensures rest { IsAtRest (view_of pass.new) }
    ensures numbered { IsPass (view_of pass.new) number }
{
    let bit = 1u64 << (32 + number);
    match step_7(world, pass, Name::Lock(lock), 0, bit) {
        Ok(()) => step_8(world, pass, Name::Lock(lock)),
        Err(found) => found,
    }
}

impl Work for TypedPair {
    #[inline(always)]
    fn round(&mut self, lock: u32) -> u64 {
        pair(&self.world, &mut self.pass, self.number, lock)
    }
}

/// Trying to take a lock to write, by one load and one exchange, and where it was taken letting it go.
#[derive(Drop)]
pub(crate) struct TypedTry {
    world: World,
    pass: Pass,
    ghost of: { IsOf world pass },
    ghost rest: { IsAtRest (view_of pass) },
}

impl TypedTry {
    /// `None` is want of memory.
    pub(crate) fn open(alloc: Global) -> Option<TypedTry> {
        let (world, pass) = open(alloc, SIZES)?;
        Some(TypedTry { world, pass })
    }
}

/// Tries to take a lock to write that the pass does not hold, and lets it go. Answers 1 where it was taken.
#[inline(always)]
fn tried_pair(world: &World, pass: &mut Pass, lock: u32) -> u64
    requires of { IsOf world.now pass.old }
    requires rest { IsAtRest (view_of pass.old) }
    requires lock { lock < 2 }
    ensures of { IsOf world.now pass.new }
    ensures rest { IsAtRest (view_of pass.new) }
{
    match try_take(world, pass, lock, true) {
        Take::Taken => {
            release(world, pass, lock);
            1
        }
        _ => 0,
    }
}

impl Work for TypedTry {
    #[inline(always)]
    fn round(&mut self, lock: u32) -> u64 {
        tried_pair(&self.world, &mut self.pass, lock)
    }
}
