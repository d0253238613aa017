//! Stores of a pass to the words of a body that it is creating.
ghost use Rattle.std.specs.Prelude.{◌≡◌, ◌<◌, true, IfSome, IsTrue};
ghost use Rattle.core_state.specs.Lists.{HasList};
ghost use Rattle.core_state.specs.Lives.{IsCreating};
ghost use Rattle.pass_table.specs.Opened.{IsFresh};
ghost use Rattle.pass_table.specs.Passes.{view_of, IsOf};

use super::typed;
use super::work::Work;
use pass_table::{Pass, Take, World, step_9, step_11, step_12, try_take};
use std::alloc::Global;
use word_map::{Config, Name};

/// With one body, so that its index is the last of the list of free ones.
const SIZES: Config = Config {
    bodies: 1,
    stripes: 2,
    layers: 1,
    slots: 1,
    nodes: 4,
    passes: 2,
};

/// A store of a user number.
#[derive(Drop)]
pub(crate) struct TypedStore {
    world: World,
    pass: Pass,
    index: u32,
    ghost of: { IsOf world pass },
    ghost below: { index < world.map.bodies },
    ghost creating: { IsCreating (view_of pass) index },
}

impl TypedStore {
    /// `None` is want of memory.
    pub(crate) fn open(alloc: Global) -> Option<TypedStore> {
        let (world, mut pass) = typed::open(alloc, SIZES)?;
        if !take_list(&world, &mut pass) {
            return None;
        }
        let index = take_index(&world, &mut pass)?;
        Some(TypedStore { world, pass, index })
    }
}

/// Tries to take the lock of the list of free indexes.
fn take_list(world: &World, pass: &mut Pass) -> bool
    requires { IsFresh world.now 0 pass.old }
    ensures of { IsOf world.now pass.new }
    ensures list { result ≡ true → HasList (view_of pass.new) }
{
    let lock = world.config().stripes;
    match try_take(world, pass, lock, true) {
        Take::Taken => true,
        _ => false,
    }
}

/// Takes the first index off the list, where it is the last one, for a body that is to be created.
fn take_index(world: &World, pass: &mut Pass) -> Option<u32>
    requires of { IsOf world.now pass.old }
    requires list { HasList (view_of pass.old) }
    ensures of { IsOf world.now pass.new }
    ensures index { IfSome result (λ index. (index < world.now.map.bodies) × IsCreating (view_of pass.new) index) }
{
    let head = step_9(world, pass, Name::SlotHead);
    if head == 0 || head > world.config().bodies as u64 {
        return None;
    }
    let index = (head - 1) as u32;
    if step_9(world, pass, Name::SlotNext(index)) != 0 {
        return None;
    }
    step_11(world, pass, Name::SlotHead, 0);
    Some(index)
}

/// Stores the user number of a body that is being created.
#[inline(always)]
fn store(world: &World, pass: &mut Pass, index: u32, user: u32)
    requires of { IsOf world.now pass.old }
    requires below { index < world.now.map.bodies }
    requires creating { IsCreating (view_of pass.old) index }
    ensures of { IsOf world.now pass.new }
    ensures creating { IsCreating (view_of pass.new) index }
{
    step_12(world, pass, Name::User(index), user as u64);
}

impl Work for TypedStore {
    #[inline(always)]
    fn round(&mut self, lock: u32) -> u64 {
        store(&self.world, &mut self.pass, self.index, lock);
        lock as u64
    }
}
