//! Moving a body that a guard has locked to write.
ghost use Rattle.std.specs.Prelude.{◌≡◌, [], ℕ, IfErr, OnOk};
ghost use Rattle.pass_table.specs.Knowing.{KnowsMore};
ghost use Rattle.pass_table.specs.Passes.{view_of, IsOf};
ghost use Rattle.pass_table.specs.Work.{Tells, SparesLocations};
ghost use Rattle.pass_table.specs.Belongings.{belongings_of};
ghost use Rattle.pass_table.specs.Bodies.{IsGuarded};
ghost use Rattle.body_lock.specs.Guarding.{IsWriting};
ghost use Rattle.widen_bounds.specs.Answers.{HasMoved, WasHeld};
ghost use Rattle.widen_bounds.specs.stages.Storing.{IsBoxing};
ghost use Rattle.widen_bounds.specs.stages.Guarded.{HoldsOrFree, MayMove, HasLocated, HasStoredBox, MovesFree};

use crate::answers::HeldAt;
use crate::storing::{store_last, store_side};
use crate::widening::Widening;
use body_ident::BodyId;
use body_lock::BodyWrite;
use body_look::{BodyFound, look_guarded};
use fixed_box::FixBox;
use pass_table::{Pass, World, step_15};
use word_map::Name;

/// Gives a body that is locked to write another box, in or out of the broad phase. It does not wait, and the guard stays
/// good.
///
/// It is refused where a batch holds the body, and then nothing has changed. Others may act meanwhile, as while `move_body`
/// is made.
pub fn move_to(
    world: &World,
    pass: &mut Pass,
    guard: &mut BodyWrite,
    to: FixBox,
) -> Result<(), HeldAt>
    requires of { IsOf world.now pass.old }
    requires good { IsWriting guard.old (view_of pass.old) }
    ensures same { guard.new ≡ guard.old }
    ensures of { IsOf world.now pass.new }
    ensures good { IsWriting guard.new (view_of pass.new) }
    ensures tells { Tells (view_of pass.old) (view_of pass.new) [] }
    ensures spares { SparesLocations (view_of pass.old) (view_of pass.new) }
    ensures keeps { belongings_of (view_of pass.new) ≡ belongings_of (view_of pass.old) }
    ensures moved { OnOk result (HasMoved guard.old.id to (view_of pass.old) (view_of pass.new)) }
    ensures refused { IfErr result (WasHeld guard.old.id (view_of pass.old) (view_of pass.new)) }
    ensures still { IfErr result (λ refused. KnowsMore (view_of pass.old) (view_of pass.new)) }
{
    let id = guard.id();
    match held_slot(world, pass, id) {
        Some(slot) => Err(HeldAt { slot }),
        None => {
            move_free(world, pass, id, &to);
            Ok(())
        }
    }
}

/// The word of the slot of the batch that holds a guarded body, if one does.
fn held_slot(world: &World, pass: &mut Pass, id: BodyId) -> Option<u64>
    requires of { IsOf world.now pass.old }
    requires guarded { IsGuarded id (view_of pass.old) }
    ensures of { IsOf world.now pass.new }
    ensures guarded { IsGuarded id (view_of pass.new) }
    ensures more { KnowsMore (view_of pass.old) (view_of pass.new) }
    ensures held { HoldsOrFree id (view_of pass.new) result }
{
    match look_guarded(world, pass, id) {
        BodyFound::Held { word, .. } => Some(word),
        BodyFound::Gone { .. } => None,
        BodyFound::Live => None,
        BodyFound::Out => None,
        BodyFound::In => None,
        BodyFound::Joined { .. } => None,
    }
}

/// Moves a body that no batch holds, under its stripe.
fn move_free(world: &World, pass: &mut Pass, id: BodyId, to: &FixBox)
    ghost index: { ℕ }
    requires named { id.index ≡ index }
    requires of { IsOf world.now pass.old }
    requires may { MayMove id (view_of pass.old) }
    ensures of { IsOf world.now pass.new }
    ensures moves { MovesFree id to.now (view_of pass.old) (view_of pass.new) }
{
    let widening = locate(world, pass, id);
    widening.widen_all(world, pass, to);
    store_box(world, pass, id, to);
}

/// Loads the locations of a body. It answers where the widening of bounds begins.
fn locate(world: &World, pass: &mut Pass, id: BodyId) -> Widening
    requires of { IsOf world.now pass.old }
    requires may { MayMove id (view_of pass.old) }
    ensures of { IsOf world.now pass.new }
    ensures located { HasLocated id result (view_of pass.old) (view_of pass.new) }
{
    let first = step_15(world, pass, Name::LocA(id.index()));
    let second = step_15(world, pass, Name::LocB(id.index()));
    Widening::new(first, second)
}

/// Stores the six words of the box, the last of which moves the body.
fn store_box(world: &World, pass: &mut Pass, id: BodyId, to: &FixBox)
    requires of { IsOf world.now pass.old }
    requires boxing { IsBoxing id to.now 0 (view_of pass.old) }
    ensures of { IsOf world.now pass.new }
    ensures stored { HasStoredBox id to.now (view_of pass.old) (view_of pass.new) }
{
    for side in 0..5 {
        store_side(world, pass, id, to, side);
    }
    store_last(world, pass, id, to);
}
