//! The single steps on the list of free indexes, each one typed call, under the list's lock.
ghost use Rattle.std.specs.Prelude.{◌≡◌, ℕ, suc, ◌<◌};
ghost use Rattle.word_map.specs.Names.{index_lock};
ghost use Rattle.word_map.specs.declared.name.Name.TheVariants.{SlotHead, SlotNext};
ghost use Rattle.core_state.specs.declared.view.Mode.TheVariants.{Write};
ghost use Rattle.core_state.specs.View.{Holds, known_word};
ghost use Rattle.core_state.specs.Lists.{HasList, IsLiveAndOut, TakesFirst};
ghost use Rattle.pass_table.specs.Passes.{view_of, IsOf};
ghost use Rattle.free_list.specs.Heads.{LoadedHead, LoadedLink, TookOff, LinkedTo, PutInFront};

use pass_table::{Pass, World, step_9, step_10, step_11};
use word_map::Name;

/// Loads the head of the list: 1 more than the first free index, and 0 where there is none.
#[inline(always)]
pub fn load_head(world: &World, pass: &mut Pass) -> u64
    requires of { IsOf world.now pass.old }
    requires list { HasList (view_of pass.old) }
    ensures of { IsOf world.now pass.new }
    ensures loaded { LoadedHead (view_of pass.old) (view_of pass.new) result }
{
    step_9(world, pass, Name::SlotHead)
}

/// Loads the link of an index: 1 more than the next free index, and 0 where it is the last.
#[inline(always)]
pub fn load_link(world: &World, pass: &mut Pass, index: u32) -> u64
    requires of { IsOf world.now pass.old }
    requires list { HasList (view_of pass.old) }
    requires below { index < world.now.map.bodies }
    ensures of { IsOf world.now pass.new }
    ensures loaded { LoadedLink (view_of pass.old) (view_of pass.new) index result }
{
    step_9(world, pass, Name::SlotNext(index))
}

/// Takes the first index off: the head becomes its link.
#[inline(always)]
pub fn take_off(world: &World, pass: &mut Pass, link: u64)
    requires of { IsOf world.now pass.old }
    requires list { HasList (view_of pass.old) }
    requires takes { TakesFirst (view_of pass.old) link }
    ensures of { IsOf world.now pass.new }
    ensures taken { (index : ℕ) → known_word (view_of pass.old) SlotHead ≡ suc index → TookOff (view_of pass.old) (view_of pass.new) index link }
{
    step_11(world, pass, Name::SlotHead, link);
}

/// Stores the link of an index that is to be put in front: it becomes the head.
#[inline(always)]
pub fn store_link(world: &World, pass: &mut Pass, index: u32, head: u64)
    requires of { IsOf world.now pass.old }
    requires list { HasList (view_of pass.old) }
    requires body { IsLiveAndOut (view_of pass.old) index }
    requires head { head ≡ known_word (view_of pass.old) SlotHead }
    ensures of { IsOf world.now pass.new }
    ensures linked { LinkedTo (view_of pass.old) (view_of pass.new) index head }
{
    step_10(world, pass, Name::SlotNext(index), head);
}

/// Puts an index in front, whose link is the head.
#[inline(always)]
pub fn put_in_front(world: &World, pass: &mut Pass, index: u32)
    requires of { IsOf world.now pass.old }
    requires list { HasList (view_of pass.old) }
    requires body { IsLiveAndOut (view_of pass.old) index }
    requires link { known_word (view_of pass.old) (SlotNext index) ≡ known_word (view_of pass.old) SlotHead }
    ensures of { IsOf world.now pass.new }
    ensures put { PutInFront (view_of pass.old) (view_of pass.new) index }
{
    step_11(world, pass, Name::SlotHead, u64::from(index) + 1);
}
