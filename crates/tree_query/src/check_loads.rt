//! Loads of the check of a candidate, one step each.
ghost use Rattle.std.specs.Prelude.{◌<◌, None};
ghost use Rattle.word_map.specs.Names.{stripe_of, IsName};
ghost use Rattle.word_map.specs.declared.name.Name.TheVariants.{Slot};
ghost use Rattle.core_state.specs.declared.view.Mode.TheVariants.{Read};
ghost use Rattle.core_state.specs.View.{Holds};
ghost use Rattle.core_state.specs.Lives.{IsOfBody};
ghost use Rattle.pass_table.specs.Turning.{AtMostOneStep, MadeBy};
ghost use Rattle.pass_table.specs.Passes.{view_of, IsOf};
ghost use Rattle.pass_table.specs.Bodies.{Loaded};

use pass_table::{Pass, World, step_15, step_17};
use word_map::Name;

/// Loads a word of the body at an index, whose stripe the pass holds to read.
#[inline(always)]
pub(crate) fn load_of_body(world: &World, pass: &mut Pass, index: u32, name: Name) -> u64
    requires of { IsOf world.now pass.old }
    requires named { IsName world.now.map name }
    requires of_body { IsOfBody index name }
    requires stripe { Holds (view_of pass.old) (stripe_of (view_of pass.old).config index) Read }
    ensures of { IsOf world.now pass.new }
    ensures loaded { Loaded (view_of pass.old) (view_of pass.new) name result }
    ensures step { AtMostOneStep (view_of pass.old) (view_of pass.new) }
    ensures made { MadeBy (view_of pass.old) (view_of pass.new) None }
{
    step_15(world, pass, name)
}

/// Loads the word of a slot of a layer. Others may change it at once.
#[inline(always)]
pub(crate) fn load_of_slot(world: &World, pass: &mut Pass, layer: u32, slot: u32) -> u64
    requires of { IsOf world.now pass.old }
    requires layers { layer < world.now.map.layers }
    requires slots { slot < world.now.map.slots }
    ensures of { IsOf world.now pass.new }
    ensures loaded { Loaded (view_of pass.old) (view_of pass.new) (Slot layer slot) result }
    ensures step { AtMostOneStep (view_of pass.old) (view_of pass.new) }
    ensures made { MadeBy (view_of pass.old) (view_of pass.new) None }
{
    step_17(world, pass, Name::Slot(layer, slot))
}
