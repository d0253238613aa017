//! Destroying a body by turns.
ghost use Rattle.std.specs.Prelude.{◌≡◌, ◌<◌, Err, None, ⊤};
ghost use Rattle.pass_table.specs.declared.turn.Turn.TheVariants.{More};
ghost use Rattle.pass_table.specs.Passes.{view_of, IsOf, IsIdle};
ghost use Rattle.pass_table.specs.Turning.{IsUnderWay};
ghost use Rattle.body_slots.specs.declared.answers.DestroyRefused.TheVariants.{InUse};
ghost use Rattle.body_slots.specs.declared.destroy_op.DestroyStage.TheVariants.{Looking, TakingList, Locked, Headed, Linked, InFront, Destroyed, Leaving};
ghost use Rattle.body_slots.specs.stages.Destroying.{DestroysBody, IsDestroyTurn};

use crate::answers::DestroyRefused;
use crate::destroy_op::{DestroyOp, DestroyStage};
use body_ident::BodyId;
use body_look::{BodyFound, LookDepth, LookOp};
use core_state::Mode;
use free_list::{load_head, put_in_front, store_link};
use pass_table::{Label, Operation, Pass, TakeOp, Turn, World, release, step_14};
use scene_model::{Entry, Made, Phase};
use word_map::Name;

impl Operation for DestroyOp {
    ghost use Rattle.body_slots.specs.stages.Destroying.{DestroysBody, DestroyAnswers, destroy_left, destroy_takes};
    ghost use Rattle.body_slots.specs.stages.DestroyLater.{destroying-later};

    type Done = Result<(), DestroyRefused>;

    ghost under_way = { DestroysBody };

    ghost answers = { λ first start last next answer. DestroyAnswers first start next answer };

    ghost left = { destroy_left };

    ghost takes = { destroy_takes };

    ghost reached = { λ operation. None };

    ghost last_label = { None };

    ghost refused = { λ answer. ⊥ };

    ghost says = { λ first start next label. ⊤ };

    ghost entry = { λ operation. operation.made };

    fn turn(&mut self, world: &World, pass: &mut Pass) -> Turn<Result<(), DestroyRefused>> {
        self.next_turn(world, pass)
    }

    fn label(&self) -> Option<Label> {
        None
    }

    fn made(&self) -> Option<&Made> {
        self.made.as_ref()
    }

    ghost may_look = { destroying-later };
}

impl DestroyOp {
    /// Begins to destroy the body of an id; no step is made yet.
    pub fn new(world: &World, pass: &mut Pass, id: BodyId) -> DestroyOp
        requires idle { IsIdle world.now pass.old }
        requires below { id.index < world.now.map.bodies }
        ensures pass { pass.new ≡ pass.old }
        ensures begun { result.id ≡ id }
        ensures under_way { DestroysBody result (view_of pass.old) result (view_of pass.new) }
    {
        let look = LookOp::new(world, pass, id, Mode::Write, LookDepth::Phase);
        DestroyOp {
            id,
            look,
            stage: DestroyStage::Looking,
            made: None,
        }
    }

    /// The turn of the stage that it is at.
    fn next_turn(&mut self, world: &World, pass: &mut Pass) -> Turn<Result<(), DestroyRefused>>
        requires of { IsOf world.now pass.old }
        requires under_way { IsUnderWay DestroysBody self.old (view_of pass.old) }
        ensures of { IsOf world.now pass.new }
        ensures turn { IsDestroyTurn result self.old self.new (view_of pass.old) (view_of pass.new) }
    {
        match self.stage {
            DestroyStage::Looking => self.look(world, pass),
            DestroyStage::TakingList { taking } => self.take_list(world, pass, taking),
            DestroyStage::Locked => self.load_head(world, pass),
            DestroyStage::Headed { head } => self.store_link(world, pass, head),
            DestroyStage::Linked => self.put_in_front(world, pass),
            DestroyStage::InFront => self.store_state(world, pass),
            DestroyStage::Destroyed => self.leave_list(world, pass),
            DestroyStage::Leaving { answer } => self.leave(world, pass, answer),
        }
    }

    /// Goes on to a stage, after a turn that made no entry.
    fn go_on(&mut self, stage: DestroyStage) -> Turn<Result<(), DestroyRefused>>
        ensures more { result ≡ More }
        ensures stage { self.new ≡ record self.old { stage = stage; made = None } }
    {
        self.stage = stage;
        self.made = None;
        Turn::More
    }

    /// Goes on to let the stripe go, since the body is in this phase.
    fn refuse(&mut self, phase: Phase) -> Turn<Result<(), DestroyRefused>>
        ensures more { result ≡ More }
        ensures stage { self.new ≡ record self.old { stage = Leaving (Err (InUse phase)); made = None } }
    {
        self.go_on(DestroyStage::Leaving {
            answer: Err(DestroyRefused::InUse { phase }),
        })
    }

    /// A turn of looking at the body. Where it is out, the lock of the list is taken next, and else the stripe let go.
    #[inline(always)]
    fn look(&mut self, world: &World, pass: &mut Pass) -> Turn<Result<(), DestroyRefused>>
        requires of { IsOf world.now pass.old }
        requires under_way { IsUnderWay DestroysBody self.old (view_of pass.old) }
        requires stage { self.old.stage ≡ Looking }
        ensures of { IsOf world.now pass.new }
        ensures turn { IsDestroyTurn result self.old self.new (view_of pass.old) (view_of pass.new) }
    {
        match self.look.turn(world, pass) {
            Turn::Done(BodyFound::Gone { state }) => self.go_on(DestroyStage::Leaving {
                answer: Err(DestroyRefused::Gone { state }),
            }),
            Turn::Done(BodyFound::Live) => unreachable!(),
            Turn::Done(BodyFound::Out) => {
                let lock = world.index_lock();
                let taking = TakeOp::new(world, pass, lock, Mode::Write);
                self.go_on(DestroyStage::TakingList { taking })
            }
            Turn::Done(BodyFound::In) => self.refuse(Phase::In),
            Turn::Done(BodyFound::Held { .. }) => self.refuse(Phase::Held),
            Turn::Done(BodyFound::Joined { .. }) => self.refuse(Phase::In),
            Turn::More => {
                self.made = None;
                Turn::More
            }
            Turn::Again { lock, word } => {
                self.made = None;
                Turn::Again { lock, word }
            }
        }
    }

    /// A turn of taking the lock of the list.
    fn take_list(
        &mut self,
        world: &World,
        pass: &mut Pass,
        taking: TakeOp,
    ) -> Turn<Result<(), DestroyRefused>>
        requires of { IsOf world.now pass.old }
        requires under_way { IsUnderWay DestroysBody self.old (view_of pass.old) }
        requires stage { self.old.stage ≡ TakingList taking }
        ensures of { IsOf world.now pass.new }
        ensures turn { IsDestroyTurn result self.old self.new (view_of pass.old) (view_of pass.new) }
    {
        let mut taking = taking;
        match taking.turn(world, pass) {
            Turn::Done(()) => self.go_on(DestroyStage::Locked),
            Turn::More => self.go_on(DestroyStage::TakingList { taking }),
            Turn::Again { lock, word } => {
                self.go_on(DestroyStage::TakingList { taking });
                Turn::Again { lock, word }
            }
        }
    }

    /// The turn that loads the head of the list.
    fn load_head(&mut self, world: &World, pass: &mut Pass) -> Turn<Result<(), DestroyRefused>>
        requires of { IsOf world.now pass.old }
        requires under_way { IsUnderWay DestroysBody self.old (view_of pass.old) }
        requires stage { self.old.stage ≡ Locked }
        ensures of { IsOf world.now pass.new }
        ensures turn { IsDestroyTurn result self.old self.new (view_of pass.old) (view_of pass.new) }
    {
        let head = load_head(world, pass);
        self.go_on(DestroyStage::Headed { head })
    }

    /// The turn that stores the link of the index.
    fn store_link(
        &mut self,
        world: &World,
        pass: &mut Pass,
        head: u64,
    ) -> Turn<Result<(), DestroyRefused>>
        requires of { IsOf world.now pass.old }
        requires under_way { IsUnderWay DestroysBody self.old (view_of pass.old) }
        requires stage { self.old.stage ≡ Headed head }
        ensures of { IsOf world.now pass.new }
        ensures turn { IsDestroyTurn result self.old self.new (view_of pass.old) (view_of pass.new) }
    {
        store_link(world, pass, self.id.index(), head);
        self.go_on(DestroyStage::Linked)
    }

    /// The turn that puts the index in front.
    fn put_in_front(&mut self, world: &World, pass: &mut Pass) -> Turn<Result<(), DestroyRefused>>
        requires of { IsOf world.now pass.old }
        requires under_way { IsUnderWay DestroysBody self.old (view_of pass.old) }
        requires stage { self.old.stage ≡ Linked }
        ensures of { IsOf world.now pass.new }
        ensures turn { IsDestroyTurn result self.old self.new (view_of pass.old) (view_of pass.new) }
    {
        put_in_front(world, pass, self.id.index());
        self.go_on(DestroyStage::InFront)
    }

    /// The turn that destroys the body.
    fn store_state(&mut self, world: &World, pass: &mut Pass) -> Turn<Result<(), DestroyRefused>>
        requires of { IsOf world.now pass.old }
        requires under_way { IsUnderWay DestroysBody self.old (view_of pass.old) }
        requires stage { self.old.stage ≡ InFront }
        ensures of { IsOf world.now pass.new }
        ensures turn { IsDestroyTurn result self.old self.new (view_of pass.old) (view_of pass.new) }
    {
        let index = self.id.index();
        step_14(world, pass, Name::State(index), u64::from(self.id.seq()));
        self.stage = DestroyStage::Destroyed;
        self.made = Some(Made {
            pass: pass.number(),
            entry: Entry::Destroy { index },
        });
        Turn::More
    }

    /// The turn that lets the lock of the list go.
    fn leave_list(&mut self, world: &World, pass: &mut Pass) -> Turn<Result<(), DestroyRefused>>
        requires of { IsOf world.now pass.old }
        requires under_way { IsUnderWay DestroysBody self.old (view_of pass.old) }
        requires stage { self.old.stage ≡ Destroyed }
        ensures of { IsOf world.now pass.new }
        ensures turn { IsDestroyTurn result self.old self.new (view_of pass.old) (view_of pass.new) }
    {
        release(world, pass, world.index_lock());
        self.go_on(DestroyStage::Leaving { answer: Ok(()) })
    }

    /// The turn that lets the stripe go.
    fn leave(
        &mut self,
        world: &World,
        pass: &mut Pass,
        answer: Result<(), DestroyRefused>,
    ) -> Turn<Result<(), DestroyRefused>>
        requires of { IsOf world.now pass.old }
        requires under_way { IsUnderWay DestroysBody self.old (view_of pass.old) }
        requires stage { self.old.stage ≡ Leaving answer }
        ensures of { IsOf world.now pass.new }
        ensures turn { IsDestroyTurn result self.old self.new (view_of pass.old) (view_of pass.new) }
    {
        release(world, pass, world.stripe_of(self.id.index()));
        self.made = None;
        Turn::Done(answer)
    }
}
