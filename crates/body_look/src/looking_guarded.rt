//! A look at a body whose stripe is held already.
ghost use Rattle.pass_table.specs.Knowing.{KnowsMore};
ghost use Rattle.pass_table.specs.Passes.{view_of, IsOf};
ghost use Rattle.pass_table.specs.Bodies.{IsGuarded, IsCurrent};
ghost use Rattle.body_look.specs.declared.look_op.LookDepth.TheVariants.{Phase as ItsPhase};
ghost use Rattle.body_look.specs.Found.{IsFound, IsAsked};

use crate::body_found::BodyFound;
use crate::word_loads::{load_layer, load_phase, load_slot};
use body_ident::BodyId;
use pass_table::{Pass, World};
use word_map::{PhaseWord, SlotWord};

/// Tells the phase of a guarded body, by one to three steps: its phase word, and where that names a slot its layer and the
/// word of the slot. What it answers is so at the last of them. Where it is `Held`, others may attach the batch at once.
#[inline]
pub fn look_guarded(world: &World, pass: &mut Pass, id: BodyId) -> BodyFound
    requires of { IsOf world.now pass.old }
    requires guarded { IsGuarded id (view_of pass.old) }
    ensures of { IsOf world.now pass.new }
    ensures guarded { IsGuarded id (view_of pass.new) }
    ensures now { IsCurrent (view_of pass.new) }
    ensures more { KnowsMore (view_of pass.old) (view_of pass.new) }
    ensures asked { IsAsked ItsPhase result }
    ensures found { IsFound id (view_of pass.new) result }
{
    match PhaseWord::from_word(load_phase(world, pass, id)) {
        PhaseWord::Out => BodyFound::Out,
        PhaseWord::In => BodyFound::In,
        PhaseWord::Joined { slot } => {
            let layer = load_layer(world, pass, id);
            let word = load_slot(world, pass, id, layer, slot);
            if SlotWord::names_tree(word) {
                BodyFound::Joined { layer, slot, word }
            } else {
                BodyFound::Held { layer, slot, word }
            }
        }
    }
}
