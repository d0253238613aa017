//! What a body is, read off its words while its lock is held.
ghost use Rattle.std.specs.Prelude.{◌≡◌};
ghost use Rattle.word_map.specs.declared.name.Name.TheVariants.{Layer};
ghost use Rattle.core_state.specs.View.{known_word};
ghost use Rattle.pass_table.specs.Knowing.{KnowsMore};
ghost use Rattle.pass_table.specs.Calls.{AtPoint};
ghost use Rattle.pass_table.specs.Passes.{view_of, IsOf};
ghost use Rattle.pass_table.specs.Bodies.{IsGuarded, IsCurrent};
ghost use Rattle.body_look.specs.Found.{IsFound};
ghost use Rattle.body_lock.specs.Seeing.{IsSeenAt};

use body_ident::BodyId;
use body_look::{BodyFound, load_box, load_layer, load_user, look_guarded};
use pass_table::{Pass, World};
use scene_model::BodyView;

/// The layer of a body that was looked at: where the look did not tell it, it is loaded.
fn layer_of(world: &World, pass: &mut Pass, id: BodyId, found: BodyFound) -> u32
    requires of { IsOf world.now pass.old }
    requires guarded { IsGuarded id (view_of pass.old) }
    requires now { IsCurrent (view_of pass.old) }
    requires found { IsFound id (view_of pass.old) found }
    ensures of { IsOf world.now pass.new }
    ensures guarded { IsGuarded id (view_of pass.new) }
    ensures more { KnowsMore (view_of pass.old) (view_of pass.new) }
    ensures layer { known_word (view_of pass.old) (Layer id.index) ≡ result }
{
    match found {
        BodyFound::Held { layer, .. } | BodyFound::Joined { layer, .. } => layer,
        _ => load_layer(world, pass, id),
    }
}

/// Reads the body whose lock is held: what it answers is the body at one point of the call, that of the step which tells
/// the phase. Nothing but the phase may change meanwhile.
pub(crate) fn read_body(world: &World, pass: &mut Pass, id: BodyId) -> BodyView
    requires of { IsOf world.now pass.old }
    requires guarded { IsGuarded id (view_of pass.old) }
    ensures of { IsOf world.now pass.new }
    ensures now { IsCurrent (view_of pass.new) }
    ensures more { KnowsMore (view_of pass.old) (view_of pass.new) }
    ensures seen { AtPoint (view_of pass.old) (view_of pass.new) (IsSeenAt (view_of pass.old).config (view_of pass.old).known id result) }
{
    let found = look_guarded(world, pass, id);
    let phase = match found.phase() {
        Some(phase) => phase,
        None => unreachable!(),
    };
    let layer = layer_of(world, pass, id, found);
    let bounds = load_box(world, pass, id);
    let user = load_user(world, pass, id);
    BodyView {
        id,
        layer,
        bounds,
        user,
        phase,
    }
}
