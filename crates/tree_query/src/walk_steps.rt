//! The steps of a walk, as a query makes them: it begins, loads one word after the other, and ends.
ghost use Rattle.std.specs.Prelude.{◌≡◌, ℕ, true, false, None};
ghost use Rattle.word_map.specs.declared.name.Name.TheVariants.{Main, Slot, Child, Bound};
ghost use Rattle.word_map.specs.Names.{IsName};
ghost use Rattle.core_state.specs.View.{IsPass};
ghost use Rattle.pass_table.specs.Passes.{view_of, IsOf};
ghost use Rattle.pass_table.specs.Turning.{AtMostOneStep, MadeBy};
ghost use Rattle.tree_query.specs.Walking.{WalksOn, BeginsWalk, EndsWalk};

use pass_table::{Pass, World, step_28, step_29, step_30, step_31, step_32, step_33};
use word_map::Name;

/// Begins to walk. The pass does not walk yet; it may hold locks.
#[inline(always)]
pub(crate) fn begin(world: &World, pass: &mut Pass)
    requires of { IsOf world.now pass.old }
    requires rests { (view_of pass.old).walk.is_on ≡ false }
    ensures of { IsOf world.now pass.new }
    ensures begins { (number : ℕ) × (found : ℕ) × IsPass (view_of pass.old) number × BeginsWalk (view_of pass.old) (view_of pass.new) number found }
    ensures step { AtMostOneStep (view_of pass.old) (view_of pass.new) }
    ensures made { MadeBy (view_of pass.old) (view_of pass.new) None }
{
    let number = pass.number();
    step_28(world, pass, Name::Reader(number));
}

/// Ends the walk.
#[inline(always)]
pub(crate) fn end(world: &World, pass: &mut Pass)
    requires of { IsOf world.now pass.old }
    requires walks { (view_of pass.old).walk.is_on ≡ true }
    ensures of { IsOf world.now pass.new }
    ensures ends { (number : ℕ) × (found : ℕ) × IsPass (view_of pass.old) number × EndsWalk (view_of pass.old) (view_of pass.new) number found }
    ensures step { AtMostOneStep (view_of pass.old) (view_of pass.new) }
    ensures made { MadeBy (view_of pass.old) (view_of pass.new) None }
{
    let number = pass.number();
    step_29(world, pass, Name::Reader(number));
}

/// Loads a slot of a layer.
#[inline(always)]
pub(crate) fn load_slot(world: &World, pass: &mut Pass, layer: u32, slot: u32) -> u64
    requires of { IsOf world.now pass.old }
    requires named { IsName world.now.map (Slot layer slot) }
    requires walks { (view_of pass.old).walk.is_on ≡ true }
    ensures of { IsOf world.now pass.new }
    ensures on { WalksOn (view_of pass.old) (view_of pass.new) (Slot layer slot) result }
    ensures step { AtMostOneStep (view_of pass.old) (view_of pass.new) }
    ensures made { MadeBy (view_of pass.old) (view_of pass.new) None }
{
    step_30(world, pass, Name::Slot(layer, slot))
}

/// Loads the main word of a layer.
#[inline(always)]
pub(crate) fn load_main(world: &World, pass: &mut Pass, layer: u32) -> u64
    requires of { IsOf world.now pass.old }
    requires named { IsName world.now.map (Main layer) }
    requires walks { (view_of pass.old).walk.is_on ≡ true }
    ensures of { IsOf world.now pass.new }
    ensures on { WalksOn (view_of pass.old) (view_of pass.new) (Main layer) result }
    ensures step { AtMostOneStep (view_of pass.old) (view_of pass.new) }
    ensures made { MadeBy (view_of pass.old) (view_of pass.new) None }
{
    step_31(world, pass, Name::Main(layer))
}

/// Loads a child of a node.
#[inline(always)]
pub(crate) fn load_child(world: &World, pass: &mut Pass, node: u32, child: u32) -> u64
    requires of { IsOf world.now pass.old }
    requires named { IsName world.now.map (Child node child) }
    requires walks { (view_of pass.old).walk.is_on ≡ true }
    ensures of { IsOf world.now pass.new }
    ensures on { WalksOn (view_of pass.old) (view_of pass.new) (Child node child) result }
    ensures step { AtMostOneStep (view_of pass.old) (view_of pass.new) }
    ensures made { MadeBy (view_of pass.old) (view_of pass.new) None }
{
    step_32(world, pass, Name::Child(node, child))
}

/// Loads a side of the bound of a child.
#[inline(always)]
pub(crate) fn load_side(world: &World, pass: &mut Pass, node: u32, child: u32, side: u32) -> u64
    requires of { IsOf world.now pass.old }
    requires named { IsName world.now.map (Bound node child side) }
    requires walks { (view_of pass.old).walk.is_on ≡ true }
    ensures of { IsOf world.now pass.new }
    ensures on { WalksOn (view_of pass.old) (view_of pass.new) (Bound node child side) result }
    ensures step { AtMostOneStep (view_of pass.old) (view_of pass.new) }
    ensures made { MadeBy (view_of pass.old) (view_of pass.new) None }
{
    step_33(world, pass, Name::Bound(node, child, side))
}
