//! Taking a body out of the broad phase by turns.
ghost use Rattle.std.specs.Prelude.{◌≡◌, ◌<◌, Some, None};
ghost use Rattle.pass_table.specs.declared.turn.Turn.TheVariants.{More};
ghost use Rattle.pass_table.specs.Passes.{view_of, IsOf, IsIdle};
ghost use Rattle.pass_table.specs.Turning.{IsUnderWay};
ghost use Rattle.remove_body.specs.declared.remove_op.RemoveStage.TheVariants.{Looking, Inside, HalfLocated, Located, TakenOut, HalfCleared, Cleared, Forgotten, Leaving};
ghost use Rattle.remove_body.specs.stages.Removing.{IsRemoving, IsRemoveTurn, label_of};

use crate::answers::RemoveRefused;
use crate::clearing::clear_entry;
use crate::remove_op::{RemoveOp, RemoveStage};
use body_ident::BodyId;
use body_look::{BodyFound, LookDepth, LookOp};
use core_state::Mode;
use pass_table::{Label, Operation, Pass, Turn, World, release, step_15, step_39, step_41};
use scene_model::{Entry, Made};
use word_map::Name;

impl Operation for RemoveOp {
    ghost use Rattle.remove_body.specs.stages.Removing.{IsRemoving, HasRemovedOr, remove_left, remove_takes, label_of, label_says};
    ghost use Rattle.remove_body.specs.stages.RemoveLater.{removing-later};
    ghost use Rattle.pass_table.specs.Labels.{IsRefusal};

    type Done = Result<(), RemoveRefused>;

    ghost under_way = { IsRemoving };

    ghost answers = { λ first start last next answer. HasRemovedOr first start next answer };

    ghost left = { remove_left };

    ghost takes = { remove_takes };

    ghost reached = { label_of };

    ghost last_label = { Some 0 };

    ghost refused = { λ answer. IsRefusal answer };

    ghost says = { label_says };

    ghost entry = { λ operation. operation.made };

    fn turn(&mut self, world: &World, pass: &mut Pass) -> Turn<Result<(), RemoveRefused>> {
        self.next_turn(world, pass)
    }

    fn label(&self) -> Option<Label> {
        match self.stage {
            RemoveStage::TakenOut { .. }
            | RemoveStage::HalfCleared { .. }
            | RemoveStage::Cleared { .. }
            | RemoveStage::Forgotten { .. }
            | RemoveStage::Leaving { answer: Ok(()) } => Some(Label::new(0)),
            _ => None,
        }
    }

    fn made(&self) -> Option<&Made> {
        self.made.as_ref()
    }

    ghost may_look = { removing-later };
}

impl RemoveOp {
    /// Begins to take the body of an id out; no step is made yet.
    pub fn new(world: &World, pass: &mut Pass, id: BodyId) -> RemoveOp
        requires idle { IsIdle world.now pass.old }
        requires below { id.index < world.now.map.bodies }
        ensures pass { pass.new ≡ pass.old }
        ensures begun { result.id ≡ id }
        ensures under_way { IsRemoving result (view_of pass.old) result (view_of pass.new) }
        ensures unlabelled { label_of result ≡ None }
    {
        let look = LookOp::new(world, pass, id, Mode::Write, LookDepth::Phase);
        RemoveOp {
            id,
            look,
            stage: RemoveStage::Looking,
            made: None,
        }
    }

    /// The turn of the stage that it is at.
    fn next_turn(&mut self, world: &World, pass: &mut Pass) -> Turn<Result<(), RemoveRefused>>
        requires of { IsOf world.now pass.old }
        requires under_way { IsUnderWay IsRemoving self.old (view_of pass.old) }
        ensures of { IsOf world.now pass.new }
        ensures turn { IsRemoveTurn result self.old self.new (view_of pass.old) (view_of pass.new) }
    {
        match self.stage {
            RemoveStage::Looking => self.look(world, pass),
            RemoveStage::Inside => self.load_first(world, pass),
            RemoveStage::HalfLocated { first } => self.load_second(world, pass, first),
            RemoveStage::Located { first, second } => self.take_out(world, pass, first, second),
            RemoveStage::TakenOut { first, second } => self.clear_first(world, pass, first, second),
            RemoveStage::HalfCleared { first, second } => {
                self.clear_second(world, pass, first, second)
            }
            RemoveStage::Cleared { first, second } => {
                self.forget_first(world, pass, first, second)
            }
            RemoveStage::Forgotten { second } => self.forget_second(world, pass, second),
            RemoveStage::Leaving { answer } => self.leave(world, pass, answer),
        }
    }

    /// Goes on to a stage, after a turn that made no entry.
    fn go_on(&mut self, stage: RemoveStage) -> Turn<Result<(), RemoveRefused>>
        ensures more { result ≡ More }
        ensures stage { self.new ≡ record self.old { stage = stage; made = None } }
    {
        self.stage = stage;
        self.made = None;
        Turn::More
    }

    /// A turn of looking at the body. Where it is in the broad phase, its locations are loaded next, and else the stripe
    /// let go.
    #[inline(always)]
    fn look(&mut self, world: &World, pass: &mut Pass) -> Turn<Result<(), RemoveRefused>>
        requires of { IsOf world.now pass.old }
        requires under_way { IsUnderWay IsRemoving self.old (view_of pass.old) }
        requires stage { self.old.stage ≡ Looking }
        ensures of { IsOf world.now pass.new }
        ensures turn { IsRemoveTurn result self.old self.new (view_of pass.old) (view_of pass.new) }
    {
        match self.look.turn(world, pass) {
            Turn::Done(BodyFound::Gone { state }) => self.go_on(RemoveStage::Leaving {
                answer: Err(RemoveRefused::Gone { state }),
            }),
            Turn::Done(BodyFound::Live) => unreachable!(),
            Turn::Done(BodyFound::Out) => self.go_on(RemoveStage::Leaving {
                answer: Err(RemoveRefused::NotIn { phase: 0 }),
            }),
            Turn::Done(BodyFound::In) => self.go_on(RemoveStage::Inside),
            Turn::Done(BodyFound::Held { word, .. }) => self.go_on(RemoveStage::Leaving {
                answer: Err(RemoveRefused::Held { slot: word }),
            }),
            Turn::Done(BodyFound::Joined { .. }) => self.go_on(RemoveStage::Inside),
            Turn::More => {
                self.made = None;
                Turn::More
            }
            Turn::Again { lock, word } => {
                self.made = None;
                Turn::Again { lock, word }
            }
        }
    }

    /// The turn that loads the first location word.
    fn load_first(&mut self, world: &World, pass: &mut Pass) -> Turn<Result<(), RemoveRefused>>
        requires of { IsOf world.now pass.old }
        requires under_way { IsUnderWay IsRemoving self.old (view_of pass.old) }
        requires stage { self.old.stage ≡ Inside }
        ensures of { IsOf world.now pass.new }
        ensures turn { IsRemoveTurn result self.old self.new (view_of pass.old) (view_of pass.new) }
    {
        let first = step_15(world, pass, Name::LocA(self.id.index()));
        self.go_on(RemoveStage::HalfLocated { first })
    }

    /// The turn that loads the second location word.
    fn load_second(
        &mut self,
        world: &World,
        pass: &mut Pass,
        first: u64,
    ) -> Turn<Result<(), RemoveRefused>>
        requires of { IsOf world.now pass.old }
        requires under_way { IsUnderWay IsRemoving self.old (view_of pass.old) }
        requires stage { self.old.stage ≡ HalfLocated first }
        ensures of { IsOf world.now pass.new }
        ensures turn { IsRemoveTurn result self.old self.new (view_of pass.old) (view_of pass.new) }
    {
        let second = step_15(world, pass, Name::LocB(self.id.index()));
        self.go_on(RemoveStage::Located { first, second })
    }

    /// The turn that takes the body out: its phase word says so.
    fn take_out(
        &mut self,
        world: &World,
        pass: &mut Pass,
        first: u64,
        second: u64,
    ) -> Turn<Result<(), RemoveRefused>>
        requires of { IsOf world.now pass.old }
        requires under_way { IsUnderWay IsRemoving self.old (view_of pass.old) }
        requires stage { self.old.stage ≡ Located first second }
        ensures of { IsOf world.now pass.new }
        ensures turn { IsRemoveTurn result self.old self.new (view_of pass.old) (view_of pass.new) }
    {
        let index = self.id.index();
        step_39(world, pass, Name::Phase(index), 0);
        self.stage = RemoveStage::TakenOut { first, second };
        self.made = Some(Made {
            pass: pass.number(),
            entry: Entry::Remove { index },
        });
        Turn::More
    }

    /// The turn that clears the entry at the first location.
    fn clear_first(
        &mut self,
        world: &World,
        pass: &mut Pass,
        first: u64,
        second: u64,
    ) -> Turn<Result<(), RemoveRefused>>
        requires of { IsOf world.now pass.old }
        requires under_way { IsUnderWay IsRemoving self.old (view_of pass.old) }
        requires stage { self.old.stage ≡ TakenOut first second }
        ensures of { IsOf world.now pass.new }
        ensures turn { IsRemoveTurn result self.old self.new (view_of pass.old) (view_of pass.new) }
    {
        clear_entry(world, pass, self.id, first);
        self.go_on(RemoveStage::HalfCleared { first, second })
    }

    /// The turn that clears the entry at the second location. Where there is none, it makes no step.
    fn clear_second(
        &mut self,
        world: &World,
        pass: &mut Pass,
        first: u64,
        second: u64,
    ) -> Turn<Result<(), RemoveRefused>>
        requires of { IsOf world.now pass.old }
        requires under_way { IsUnderWay IsRemoving self.old (view_of pass.old) }
        requires stage { self.old.stage ≡ HalfCleared first second }
        ensures of { IsOf world.now pass.new }
        ensures turn { IsRemoveTurn result self.old self.new (view_of pass.old) (view_of pass.new) }
    {
        clear_entry(world, pass, self.id, second);
        self.go_on(RemoveStage::Cleared { first, second })
    }

    /// The turn that clears the first location.
    fn forget_first(
        &mut self,
        world: &World,
        pass: &mut Pass,
        first: u64,
        second: u64,
    ) -> Turn<Result<(), RemoveRefused>>
        requires of { IsOf world.now pass.old }
        requires under_way { IsUnderWay IsRemoving self.old (view_of pass.old) }
        requires stage { self.old.stage ≡ Cleared first second }
        ensures of { IsOf world.now pass.new }
        ensures turn { IsRemoveTurn result self.old self.new (view_of pass.old) (view_of pass.new) }
    {
        step_41(world, pass, Name::LocA(self.id.index()), 0);
        self.go_on(RemoveStage::Forgotten { second })
    }

    /// The turn that clears the second location, with which the removal is whole.
    fn forget_second(
        &mut self,
        world: &World,
        pass: &mut Pass,
        second: u64,
    ) -> Turn<Result<(), RemoveRefused>>
        requires of { IsOf world.now pass.old }
        requires under_way { IsUnderWay IsRemoving self.old (view_of pass.old) }
        requires stage { self.old.stage ≡ Forgotten second }
        ensures of { IsOf world.now pass.new }
        ensures turn { IsRemoveTurn result self.old self.new (view_of pass.old) (view_of pass.new) }
    {
        step_41(world, pass, Name::LocB(self.id.index()), 0);
        self.go_on(RemoveStage::Leaving { answer: Ok(()) })
    }

    /// The turn that lets the stripe go.
    fn leave(
        &mut self,
        world: &World,
        pass: &mut Pass,
        answer: Result<(), RemoveRefused>,
    ) -> Turn<Result<(), RemoveRefused>>
        requires of { IsOf world.now pass.old }
        requires under_way { IsUnderWay IsRemoving self.old (view_of pass.old) }
        requires stage { self.old.stage ≡ Leaving answer }
        ensures of { IsOf world.now pass.new }
        ensures turn { IsRemoveTurn result self.old self.new (view_of pass.old) (view_of pass.new) }
    {
        release(world, pass, world.stripe_of(self.id.index()));
        self.made = None;
        Turn::Done(answer)
    }
}
