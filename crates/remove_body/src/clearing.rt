//! Clearing the entry of a body that is taken out, where it has one.
ghost use Rattle.std.specs.Prelude.{◌≡◌, ◌<◌};
ghost use Rattle.core_state.specs.declared.view.Task.TheVariants.{Removing as RemovingTask};
ghost use Rattle.pass_table.specs.Passes.{view_of, IsOf};
ghost use Rattle.remove_body.specs.stages.Removing.{ClearsEntry, IsLocationOf};

use body_ident::BodyId;
use pass_table::{Pass, World, step_40};
use word_map::{LocationWord, Name};

/// Clears the entry at a location of a body that the pass takes out, in one step. Where the word names no location, no
/// step is made.
///
/// Others may read the entry meanwhile, and find the body or nothing there.
pub(crate) fn clear_entry(world: &World, pass: &mut Pass, id: BodyId, at: u64)
    requires of { IsOf world.now pass.old }
    requires removing { (view_of pass.old).call.task ≡ RemovingTask id.index }
    requires at { IsLocationOf id.index (view_of pass.old) at }
    ensures of { IsOf world.now pass.new }
    ensures clears { ClearsEntry (view_of pass.old) (view_of pass.new) at }
{
    match LocationWord::from_word(at) {
        LocationWord::Nowhere => {}
        LocationWord::At { node, child } => step_40(world, pass, Name::Child(node, child), 0),
    }
}
