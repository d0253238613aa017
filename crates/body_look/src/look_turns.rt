//! Looking at a body by turns.
ghost use Rattle.std.specs.Prelude.{◌≡◌, ◌<◌, None, ⊤};
ghost use Rattle.pass_table.specs.Turning.{IsUnderWay};
ghost use Rattle.pass_table.specs.Passes.{view_of, IsOf, IsIdle};
ghost use Rattle.body_look.specs.declared.look_op.LookStage.TheVariants.{Taking, Striped, Live, Joining, Placed};
ghost use Rattle.body_look.specs.stages.Looking.{looking_of, IsLooking, IsLookTurn};

use crate::body_found::BodyFound;
use crate::look_op::{LookDepth, LookOp, LookStage};
use crate::word_loads;
use body_ident::BodyId;
use core_state::Mode;
use pass_table::{Label, Operation, Pass, TakeOp, Turn, World, step_15};
use scene_model::Made;
use word_map::{Name, PhaseWord, SlotWord, StateWord};

/// The stripe is held when it is done, whatever it answers; the caller lets it go.
impl Operation for LookOp {
    ghost use Rattle.body_look.specs.stages.Looking.{look_left, look_takes, HasLooked};
    ghost use Rattle.body_look.specs.stages.LookLater.{looking-later};

    type Done = BodyFound;

    ghost under_way = { IsLooking };

    ghost answers = { λ first start last next answer. HasLooked first.id first.mode first.depth start next answer };

    ghost left = { look_left };

    ghost takes = { look_takes };

    ghost reached = { λ operation. None };

    ghost last_label = { None };

    ghost refused = { λ answer. ⊥ };

    ghost says = { λ first start next label. ⊤ };

    ghost entry = { λ operation. None };

    #[inline(always)]
    fn turn(&mut self, world: &World, pass: &mut Pass) -> Turn<BodyFound> {
        match self.stage {
            LookStage::Taking => self.take(world, pass),
            LookStage::Striped => self.load_state(world, pass),
            LookStage::Live => self.load_phase(world, pass),
            LookStage::Joining { slot } => self.load_layer(world, pass, slot),
            LookStage::Placed { slot, layer } => self.load_slot(world, pass, slot, layer),
        }
    }

    fn label(&self) -> Option<Label> {
        None
    }

    fn made(&self) -> Option<&Made> {
        None
    }

    ghost may_look = { looking-later };
}

impl LookOp {
    /// Begins to look at the body of an id, under its stripe in this mode; no step is made yet.
    pub fn new(world: &World, pass: &mut Pass, id: BodyId, mode: Mode, depth: LookDepth) -> LookOp
        requires idle { IsIdle world.now pass.old }
        requires below { id.index < world.now.map.bodies }
        ensures pass { pass.new ≡ pass.old }
        ensures begun { result ≡ looking_of world.now.map id mode depth }
        ensures under_way { IsLooking result (view_of pass.old) result (view_of pass.new) }
    {
        let stripe = world.stripe_of(id.index());
        let taking = TakeOp::new(world, pass, stripe, mode);
        LookOp {
            id,
            mode,
            depth,
            taking,
            stage: LookStage::Taking,
        }
    }

    /// A turn of taking the stripe.
    #[inline(always)]
    fn take(&mut self, world: &World, pass: &mut Pass) -> Turn<BodyFound>
        requires of { IsOf world.now pass.old }
        requires under_way { IsUnderWay IsLooking self.old (view_of pass.old) }
        requires stage { self.old.stage ≡ Taking }
        ensures of { IsOf world.now pass.new }
        ensures turn { IsLookTurn result self.old self.new (view_of pass.old) (view_of pass.new) }
    {
        match self.taking.turn(world, pass) {
            Turn::Done(()) => {
                self.stage = LookStage::Striped;
                Turn::More
            }
            Turn::More => Turn::More,
            Turn::Again { lock, word } => Turn::Again { lock, word },
        }
    }

    /// The turn that loads the state word: it tells whether the body of the id is live.
    #[inline(always)]
    fn load_state(&mut self, world: &World, pass: &mut Pass) -> Turn<BodyFound>
        requires of { IsOf world.now pass.old }
        requires under_way { IsUnderWay IsLooking self.old (view_of pass.old) }
        requires stage { self.old.stage ≡ Striped }
        ensures of { IsOf world.now pass.new }
        ensures turn { IsLookTurn result self.old self.new (view_of pass.old) (view_of pass.new) }
    {
        let state = step_15(world, pass, Name::State(self.id.index()));
        let live = StateWord::Live {
            sequence: self.id.seq(),
        };
        if state != live.to_word() {
            return Turn::Done(BodyFound::Gone { state });
        }
        match self.depth {
            LookDepth::Life => Turn::Done(BodyFound::Live),
            LookDepth::Phase => {
                self.stage = LookStage::Live;
                Turn::More
            }
        }
    }

    /// The turn that loads the phase word.
    #[inline(always)]
    fn load_phase(&mut self, world: &World, pass: &mut Pass) -> Turn<BodyFound>
        requires of { IsOf world.now pass.old }
        requires under_way { IsUnderWay IsLooking self.old (view_of pass.old) }
        requires stage { self.old.stage ≡ Live }
        ensures of { IsOf world.now pass.new }
        ensures turn { IsLookTurn result self.old self.new (view_of pass.old) (view_of pass.new) }
    {
        match PhaseWord::from_word(word_loads::load_phase(world, pass, self.id)) {
            PhaseWord::Out => Turn::Done(BodyFound::Out),
            PhaseWord::In => Turn::Done(BodyFound::In),
            PhaseWord::Joined { slot } => {
                self.stage = LookStage::Joining { slot };
                Turn::More
            }
        }
    }

    /// The turn that loads the layer.
    #[inline(always)]
    fn load_layer(&mut self, world: &World, pass: &mut Pass, slot: u32) -> Turn<BodyFound>
        requires of { IsOf world.now pass.old }
        requires under_way { IsUnderWay IsLooking self.old (view_of pass.old) }
        requires stage { self.old.stage ≡ Joining slot }
        ensures of { IsOf world.now pass.new }
        ensures turn { IsLookTurn result self.old self.new (view_of pass.old) (view_of pass.new) }
    {
        let layer = word_loads::load_layer(world, pass, self.id);
        self.stage = LookStage::Placed { slot, layer };
        Turn::More
    }

    /// The turn that loads the slot word: a slot that names no tree yet is one for whose batch the body is held.
    #[inline(always)]
    fn load_slot(
        &mut self,
        world: &World,
        pass: &mut Pass,
        slot: u32,
        layer: u32,
    ) -> Turn<BodyFound>
        requires of { IsOf world.now pass.old }
        requires under_way { IsUnderWay IsLooking self.old (view_of pass.old) }
        requires stage { self.old.stage ≡ Placed slot layer }
        ensures of { IsOf world.now pass.new }
        ensures turn { IsLookTurn result self.old self.new (view_of pass.old) (view_of pass.new) }
    {
        let word = word_loads::load_slot(world, pass, self.id, layer, slot);
        if SlotWord::names_tree(word) {
            return Turn::Done(BodyFound::Joined { layer, slot, word });
        }
        Turn::Done(BodyFound::Held { layer, slot, word })
    }
}
