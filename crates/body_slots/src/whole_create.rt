//! Creating a body in one call, as direct code: the steps that the turns make, in the same order.
ghost use Rattle.std.specs.Prelude.{◌≡◌, ℕ, ◌<◌, [], Ok, IfOk, IfErr};
ghost use Rattle.pass_table.specs.Passes.{view_of, IsOf, IsIdle};
ghost use Rattle.pass_table.specs.Turning.{IsUnderWay};
ghost use Rattle.pass_table.specs.Work.{Tells};
ghost use Rattle.pass_table.specs.Ended.{HasEnded};
ghost use Rattle.pass_table.specs.Belongings.{belongings_of};
ghost use Rattle.pass_table.specs.Knowing.{KnowsLawful};
ghost use Rattle.body_slots.specs.declared.create_op.CreateStage.TheVariants.{Locked, Taken, Fields, Filled, Leaving};
ghost use Rattle.body_slots.specs.Answers.{HasCreated, WasFull, IsCreateAnswer};
ghost use Rattle.body_slots.specs.stages.Creating.{CreatesBody, at_stage, CreatesOn, once_taken};

use crate::answers::Full;
use crate::create_op::{CreateOp, CreateStage};
use crate::creating::FIELDS;
use body_ident::BodyId;
use fixed_box::FixBox;
use free_list::{load_head, load_link, take_off};
use pass_table::{Pass, World, release, step_12, step_13, step_15, take_write};
use std::sync::Wait;
use word_map::{Name, StateWord};

/// Creates a body, out of the broad phase, in this layer, with this box and user number.
///
/// It is refused only where at each index a body is live. Others may act meanwhile: the body is created in one step, at
/// which its index is the first free one.
pub fn create<R: Wait>(
    rt: &R,
    world: &World,
    pass: &mut Pass,
    layer: u32,
    bounds: FixBox,
    user: u32,
) -> Result<BodyId, Full>
    requires idle { IsIdle world.now pass.old }
    requires in_layers { layer < world.now.map.layers }
    ensures idle { IsIdle world.now pass.new }
    ensures lawful { KnowsLawful (view_of pass.new) }
    ensures tells { Tells (view_of pass.old) (view_of pass.new) [] }
    ensures keeps { belongings_of (view_of pass.new) ≡ belongings_of (view_of pass.old) }
    ensures below { IfOk result (λ id. id.index < world.now.map.bodies) }
    ensures created { IfOk result (HasCreated layer bounds user (view_of pass.old) (view_of pass.new)) }
    ensures full { IfErr result (WasFull (view_of pass.old) (view_of pass.new)) }
{
    create_body(rt, world, pass, layer, bounds, user)
}

/// Creates the body under the lock of the list, which it takes and lets go.
fn create_body<R: Wait>(
    rt: &R,
    world: &World,
    pass: &mut Pass,
    layer: u32,
    bounds: FixBox,
    user: u32,
) -> Result<BodyId, Full>
    requires idle { IsIdle world.now pass.old }
    requires in_layers { layer < world.now.map.layers }
    ensures of { IsOf world.now pass.new }
    ensures ended { HasEnded (view_of pass.old) (view_of pass.new) }
    ensures answer { IsCreateAnswer layer bounds user (view_of pass.old) (view_of pass.new) result }
{
    let lock = world.index_lock();
    take_write(rt, world, pass, lock);
    let creating = CreateOp {
        layer,
        bounds,
        user,
        stage: CreateStage::Locked,
        made: None,
    };
    let answer = creating.create_first(world, pass);
    release(world, pass, lock);
    answer
}

impl CreateOp {
    /// Creates the body at the first index of the list, under the list's lock.
    #[inline(always)]
    fn create_first(&self, world: &World, pass: &mut Pass) -> Result<BodyId, Full>
        requires of { IsOf world.now pass.old }
        requires under_way { IsUnderWay CreatesBody self.now (view_of pass.old) }
        requires stage { self.now.stage ≡ Locked }
        ensures of { IsOf world.now pass.new }
        ensures keeps { CreatesOn self.now (view_of pass.old) (at_stage self.now (Leaving result)) (view_of pass.new) }
    {
        match self.take_first(world, pass) {
            Ok(index) => Ok(self.fill(world, pass, index)),
            Err(refused) => Err(refused),
        }
    }

    /// Takes the first index off the list.
    #[inline(always)]
    fn take_first(&self, world: &World, pass: &mut Pass) -> Result<u32, Full>
        requires of { IsOf world.now pass.old }
        requires under_way { IsUnderWay CreatesBody self.now (view_of pass.old) }
        requires stage { self.now.stage ≡ Locked }
        ensures of { IsOf world.now pass.new }
        ensures keeps { CreatesOn self.now (view_of pass.old) (at_stage self.now (once_taken result)) (view_of pass.new) }
    {
        let head = load_head(world, pass);
        if head == 0 {
            return Err(Full { head });
        }
        let index = (head - 1) as u32;
        let link = load_link(world, pass, index);
        take_off(world, pass, link);
        Ok(index)
    }

    /// Gives the index that was taken off its words, and creates the body there.
    #[inline(always)]
    fn fill(&self, world: &World, pass: &mut Pass, index: u32) -> BodyId
        requires of { IsOf world.now pass.old }
        requires under_way { IsUnderWay CreatesBody (at_stage self.now (Taken index)) (view_of pass.old) }
        ensures of { IsOf world.now pass.new }
        ensures keeps { CreatesOn (at_stage self.now (Taken index)) (view_of pass.old) (at_stage self.now (Leaving (Ok result))) (view_of pass.new) }
    {
        let state = step_15(world, pass, Name::State(index));
        self.store_fields(world, pass, index);
        let sequence = StateWord::sequence_of(state).wrapping_add(1);
        let word = StateWord::Live { sequence }.to_word();
        step_13(world, pass, Name::State(index), word);
        BodyId::new(index, sequence)
    }

    /// Stores the words that the body is given.
    #[inline(always)]
    fn store_fields(&self, world: &World, pass: &mut Pass, index: u32)
        requires of { IsOf world.now pass.old }
        requires under_way { (state : ℕ) × IsUnderWay CreatesBody (at_stage self.now (Fields index state 0)) (view_of pass.old) }
        ensures of { IsOf world.now pass.new }
        ensures keeps { (state : ℕ) → CreatesOn (at_stage self.now (Fields index state 0)) (view_of pass.old) (at_stage self.now (Filled index state)) (view_of pass.new) }
    {
        for number in 0..FIELDS {
            let (name, value) = self.field(index, number);
            step_12(world, pass, name, value);
        }
    }
}
