//! Destroying a body in one call, as direct code: the steps that the turns make, in the same order.
ghost use Rattle.std.specs.Prelude.{◌≡◌, ◌<◌, [], Ok, IfErr, OnOk};
ghost use Rattle.pass_table.specs.Passes.{view_of, IsOf, IsIdle};
ghost use Rattle.pass_table.specs.Work.{Tells};
ghost use Rattle.pass_table.specs.Ended.{HasEnded};
ghost use Rattle.pass_table.specs.Belongings.{belongings_of};
ghost use Rattle.pass_table.specs.Knowing.{KnowsLawful};
ghost use Rattle.core_state.specs.declared.view.Mode.TheVariants.{Write};
ghost use Rattle.body_look.specs.declared.look_op.LookDepth.TheVariants.{Phase as ItsPhase};
ghost use Rattle.body_look.specs.stages.Looking.{HasLooked};
ghost use Rattle.body_slots.specs.declared.destroy_op.DestroyStage.TheVariants.{Locked, InFront, Leaving};
ghost use Rattle.body_slots.specs.Answers.{HasDestroyed, WasRefused, IsDestroyAnswer};
ghost use Rattle.body_slots.specs.stages.Destroying.{PastLook, IsFoundOut, SomeDestroys, DestroysOn};

use crate::answers::DestroyRefused;
use body_ident::BodyId;
use body_look::{BodyFound, look_guarded};
use free_list::{load_head, put_in_front, store_link};
use pass_table::{Pass, World, release, step_14, step_15, take_write};
use scene_model::Phase;
use std::sync::Wait;
use word_map::{Name, StateWord};

/// Destroys the body that the id names. Its index is the one that the next body takes, if no other is destroyed before.
///
/// It is refused where the body is gone, and where it is held by a batch or in the broad phase.
pub fn destroy<R: Wait>(
    rt: &R,
    world: &World,
    pass: &mut Pass,
    id: BodyId,
) -> Result<(), DestroyRefused>
    requires idle { IsIdle world.now pass.old }
    requires below { id.index < world.now.map.bodies }
    ensures idle { IsIdle world.now pass.new }
    ensures lawful { KnowsLawful (view_of pass.new) }
    ensures tells { Tells (view_of pass.old) (view_of pass.new) [] }
    ensures keeps { belongings_of (view_of pass.new) ≡ belongings_of (view_of pass.old) }
    ensures destroyed { OnOk result (HasDestroyed id (view_of pass.old) (view_of pass.new)) }
    ensures refused { IfErr result (WasRefused id (view_of pass.old) (view_of pass.new)) }
{
    destroy_body(rt, world, pass, id)
}

/// Destroys the body under its stripe, which it takes and lets go.
fn destroy_body<R: Wait>(
    rt: &R,
    world: &World,
    pass: &mut Pass,
    id: BodyId,
) -> Result<(), DestroyRefused>
    requires idle { IsIdle world.now pass.old }
    requires below { id.index < world.now.map.bodies }
    ensures of { IsOf world.now pass.new }
    ensures ended { HasEnded (view_of pass.old) (view_of pass.new) }
    ensures answer { IsDestroyAnswer id (view_of pass.old) (view_of pass.new) result }
{
    let found = look_at(rt, world, pass, id);
    let answer = destroy_found(rt, world, pass, id, found);
    let stripe = world.stripe_of(id.index());
    release(world, pass, stripe);
    answer
}

/// Takes the stripe of the body, and looks at it.
#[inline(always)]
fn look_at<R: Wait>(rt: &R, world: &World, pass: &mut Pass, id: BodyId) -> BodyFound
    requires idle { IsIdle world.now pass.old }
    requires below { id.index < world.now.map.bodies }
    ensures of { IsOf world.now pass.new }
    ensures looked { HasLooked id Write ItsPhase (view_of pass.old) (view_of pass.new) result }
{
    let index = id.index();
    let stripe = world.stripe_of(index);
    take_write(rt, world, pass, stripe);
    let state = step_15(world, pass, Name::State(index));
    let live = StateWord::Live { sequence: id.seq() };
    if state != live.to_word() {
        return BodyFound::Gone { state };
    }
    look_guarded(world, pass, id)
}

/// Destroys the body under its stripe, where a look found that it is out. It is refused otherwise.
#[inline(always)]
fn destroy_found<R: Wait>(
    rt: &R,
    world: &World,
    pass: &mut Pass,
    id: BodyId,
    found: BodyFound,
) -> Result<(), DestroyRefused>
    requires of { IsOf world.now pass.old }
    requires looked { SomeDestroys id (λ start. HasLooked id Write ItsPhase start (view_of pass.old) found) }
    ensures of { IsOf world.now pass.new }
    ensures keeps { DestroysOn id (λ start. HasLooked id Write ItsPhase start (view_of pass.old) found) (λ start. PastLook id start (view_of pass.new) (Leaving result)) }
{
    match found {
        BodyFound::Gone { state } => Err(DestroyRefused::Gone { state }),
        BodyFound::Live => unreachable!(),
        BodyFound::Out => {
            destroy_out(rt, world, pass, id);
            Ok(())
        }
        BodyFound::Held { .. } => Err(DestroyRefused::InUse { phase: Phase::Held }),
        BodyFound::In => Err(DestroyRefused::InUse { phase: Phase::In }),
        BodyFound::Joined { .. } => Err(DestroyRefused::InUse { phase: Phase::In }),
    }
}

/// Destroys a body that is out, under its stripe.
#[inline(always)]
fn destroy_out<R: Wait>(rt: &R, world: &World, pass: &mut Pass, id: BodyId)
    requires of { IsOf world.now pass.old }
    requires found { SomeDestroys id (λ start. IsFoundOut id start (view_of pass.old)) }
    ensures of { IsOf world.now pass.new }
    ensures keeps { DestroysOn id (λ start. IsFoundOut id start (view_of pass.old)) (λ start. PastLook id start (view_of pass.new) (Leaving (Ok tt))) }
{
    let lock = world.index_lock();
    take_write(rt, world, pass, lock);
    put_back(world, pass, id);
    let index = id.index();
    step_14(world, pass, Name::State(index), u64::from(id.seq()));
    release(world, pass, lock);
}

/// Puts the index of the body in front of the list, under both locks.
#[inline(always)]
fn put_back(world: &World, pass: &mut Pass, id: BodyId)
    requires of { IsOf world.now pass.old }
    requires locked { SomeDestroys id (λ start. PastLook id start (view_of pass.old) Locked) }
    ensures of { IsOf world.now pass.new }
    ensures keeps { DestroysOn id (λ start. PastLook id start (view_of pass.old) Locked) (λ start. PastLook id start (view_of pass.new) InFront) }
{
    let head = load_head(world, pass);
    let index = id.index();
    store_link(world, pass, index, head);
    put_in_front(world, pass, index);
}
