//! Moving a body by turns.
ghost use Rattle.std.specs.Prelude.{◌≡◌, ◌<◌, ◌≤◌, ℕ, Some, None};
ghost use Rattle.pass_table.specs.declared.turn.Turn.TheVariants.{More};
ghost use Rattle.pass_table.specs.Passes.{view_of, IsOf, IsIdle};
ghost use Rattle.pass_table.specs.Turning.{IsUnderWay};
ghost use Rattle.widen_bounds.specs.declared.move_op.MoveStage.TheVariants.{Looking, Found, HalfLocated, Widening as IsWideningStage, Storing, Leaving};
ghost use Rattle.widen_bounds.specs.stages.Widening.{widening_label};
ghost use Rattle.widen_bounds.specs.stages.Moving.{IsMoving, IsMoveTurn, stage_after, label_of};

use crate::answers::MoveRefused;
use crate::move_op::{MoveOp, MoveStage};
use crate::storing::{store_last, store_side};
use crate::widening::Widening;
use body_ident::BodyId;
use body_look::{BodyFound, LookDepth, LookOp};
use core_state::Mode;
use fixed_box::FixBox;
use pass_table::{Label, Operation, Pass, Turn, World, release, step_15};
use scene_model::{Entry, Made};
use word_map::Name;

impl Operation for MoveOp {
    ghost use Rattle.widen_bounds.specs.stages.Moving.{IsMoving, HasMovedOr, move_left, move_takes, label_of, label_says};
    ghost use Rattle.widen_bounds.specs.stages.MoveLater.{moving-later};
    ghost use Rattle.pass_table.specs.Labels.{IsRefusal};

    type Done = Result<(), MoveRefused>;

    ghost under_way = { IsMoving };

    ghost answers = { λ first start last next answer. HasMovedOr first start next answer };

    ghost left = { move_left };

    ghost takes = { move_takes };

    ghost reached = { label_of };

    ghost last_label = { Some 1 };

    ghost refused = { λ answer. IsRefusal answer };

    ghost says = { label_says };

    ghost entry = { λ operation. operation.made };

    fn turn(&mut self, world: &World, pass: &mut Pass) -> Turn<Result<(), MoveRefused>> {
        self.next_turn(world, pass)
    }

    fn label(&self) -> Option<Label> {
        match self.stage {
            MoveStage::Widening => self.widening_label(),
            MoveStage::Storing { .. } | MoveStage::Leaving { answer: Ok(()) } => {
                Some(Label::new(1))
            }
            _ => None,
        }
    }

    fn made(&self) -> Option<&Made> {
        self.made.as_ref()
    }

    ghost may_look = { moving-later };
}

impl MoveOp {
    /// Begins to move the body of an id to a box; no step is made yet.
    pub fn new(world: &World, pass: &mut Pass, id: BodyId, to: FixBox) -> MoveOp
        requires idle { IsIdle world.now pass.old }
        requires below { id.index < world.now.map.bodies }
        ensures pass { pass.new ≡ pass.old }
        ensures begun { result.id ≡ id }
        ensures target { result.to ≡ to }
        ensures under_way { IsMoving result (view_of pass.old) result (view_of pass.new) }
        ensures unlabelled { label_of result ≡ None }
    {
        let look = LookOp::new(world, pass, id, Mode::Write, LookDepth::Phase);
        MoveOp {
            id,
            to,
            look,
            widening: Widening::Ended,
            stage: MoveStage::Looking,
            made: None,
        }
    }

    /// The last label that the widening has reached.
    fn widening_label(&self) -> Option<Label>
        ensures { result ≡ widening_label self.now.widening }
    {
        match self.widening {
            Widening::First { climb, .. } => {
                if 1 < climb.level || (climb.level == 1 && climb.side == 6) {
                    Some(Label::new(0))
                } else {
                    None
                }
            }
            Widening::Second { .. } => Some(Label::new(0)),
            Widening::Ended => Some(Label::new(1)),
        }
    }

    /// The turn of the stage that it is at.
    fn next_turn(&mut self, world: &World, pass: &mut Pass) -> Turn<Result<(), MoveRefused>>
        requires of { IsOf world.now pass.old }
        requires under_way { IsUnderWay IsMoving self.old (view_of pass.old) }
        ensures of { IsOf world.now pass.new }
        ensures turn { IsMoveTurn result self.old self.new (view_of pass.old) (view_of pass.new) }
    {
        match self.stage {
            MoveStage::Looking => self.look(world, pass),
            MoveStage::Found => self.load_first(world, pass),
            MoveStage::HalfLocated { first } => self.load_second(world, pass, first),
            MoveStage::Widening => self.widen(world, pass),
            MoveStage::Storing { side } => {
                if side < 5 {
                    self.store_side(world, pass, side)
                } else {
                    self.store_last(world, pass, side)
                }
            }
            MoveStage::Leaving { answer } => self.leave(world, pass, answer),
        }
    }

    /// Goes on to a stage, after a turn that made no entry.
    fn go_on(&mut self, stage: MoveStage) -> Turn<Result<(), MoveRefused>>
        ensures more { result ≡ More }
        ensures stage { self.new ≡ record self.old { stage = stage; made = None } }
    {
        self.stage = stage;
        self.made = None;
        Turn::More
    }

    /// Goes on to widen bounds, or to store the box where all are widened, after a turn that made no entry.
    fn go_on_widening(&mut self) -> Turn<Result<(), MoveRefused>>
        ensures more { result ≡ More }
        ensures stage { self.new ≡ record self.old { stage = stage_after self.old.widening; made = None } }
    {
        match self.widening {
            Widening::Ended => self.go_on(MoveStage::Storing { side: 0 }),
            Widening::First { .. } | Widening::Second { .. } => self.go_on(MoveStage::Widening),
        }
    }

    /// A turn of looking at the body. Where no batch holds it, its locations are loaded next, and else the stripe let go.
    #[inline(always)]
    fn look(&mut self, world: &World, pass: &mut Pass) -> Turn<Result<(), MoveRefused>>
        requires of { IsOf world.now pass.old }
        requires under_way { IsUnderWay IsMoving self.old (view_of pass.old) }
        requires stage { self.old.stage ≡ Looking }
        ensures of { IsOf world.now pass.new }
        ensures turn { IsMoveTurn result self.old self.new (view_of pass.old) (view_of pass.new) }
    {
        match self.look.turn(world, pass) {
            Turn::Done(BodyFound::Gone { state }) => self.go_on(MoveStage::Leaving {
                answer: Err(MoveRefused::Gone { state }),
            }),
            Turn::Done(BodyFound::Live) => unreachable!(),
            Turn::Done(BodyFound::Out) => self.go_on(MoveStage::Found),
            Turn::Done(BodyFound::In) => self.go_on(MoveStage::Found),
            Turn::Done(BodyFound::Held { word, .. }) => self.go_on(MoveStage::Leaving {
                answer: Err(MoveRefused::Held { slot: word }),
            }),
            Turn::Done(BodyFound::Joined { .. }) => self.go_on(MoveStage::Found),
            Turn::More => {
                self.made = None;
                Turn::More
            }
            Turn::Again { lock, word } => {
                self.made = None;
                Turn::Again { lock, word }
            }
        }
    }

    /// The turn that loads the first location word.
    fn load_first(&mut self, world: &World, pass: &mut Pass) -> Turn<Result<(), MoveRefused>>
        requires of { IsOf world.now pass.old }
        requires under_way { IsUnderWay IsMoving self.old (view_of pass.old) }
        requires stage { self.old.stage ≡ Found }
        ensures of { IsOf world.now pass.new }
        ensures turn { IsMoveTurn result self.old self.new (view_of pass.old) (view_of pass.new) }
    {
        let first = step_15(world, pass, Name::LocA(self.id.index()));
        self.go_on(MoveStage::HalfLocated { first })
    }

    /// The turn that loads the second location word.
    fn load_second(
        &mut self,
        world: &World,
        pass: &mut Pass,
        first: u64,
    ) -> Turn<Result<(), MoveRefused>>
        requires of { IsOf world.now pass.old }
        requires under_way { IsUnderWay IsMoving self.old (view_of pass.old) }
        requires stage { self.old.stage ≡ HalfLocated first }
        ensures of { IsOf world.now pass.new }
        ensures turn { IsMoveTurn result self.old self.new (view_of pass.old) (view_of pass.new) }
    {
        let second = step_15(world, pass, Name::LocB(self.id.index()));
        self.widening = Widening::new(first, second);
        self.go_on_widening()
    }

    /// A turn of widening bounds.
    fn widen(&mut self, world: &World, pass: &mut Pass) -> Turn<Result<(), MoveRefused>>
        ghost index: { ℕ }
        requires named { self.old.id.index ≡ index }
        requires of { IsOf world.now pass.old }
        requires under_way { IsUnderWay IsMoving self.old (view_of pass.old) }
        requires stage { self.old.stage ≡ IsWideningStage }
        ensures of { IsOf world.now pass.new }
        ensures turn { IsMoveTurn result self.old self.new (view_of pass.old) (view_of pass.new) }
    {
        self.widening.turn(world, pass, &self.to);
        self.go_on_widening()
    }

    /// The turn that stores a side of the box but the last.
    fn store_side(
        &mut self,
        world: &World,
        pass: &mut Pass,
        side: u32,
    ) -> Turn<Result<(), MoveRefused>>
        requires of { IsOf world.now pass.old }
        requires under_way { IsUnderWay IsMoving self.old (view_of pass.old) }
        requires stage { self.old.stage ≡ Storing side }
        requires below { side < 5 }
        ensures of { IsOf world.now pass.new }
        ensures turn { IsMoveTurn result self.old self.new (view_of pass.old) (view_of pass.new) }
    {
        store_side(world, pass, self.id, &self.to, side);
        self.go_on(MoveStage::Storing { side: side + 1 })
    }

    /// The turn that stores the last side of the box, with which the body has it.
    fn store_last(
        &mut self,
        world: &World,
        pass: &mut Pass,
        side: u32,
    ) -> Turn<Result<(), MoveRefused>>
        requires of { IsOf world.now pass.old }
        requires under_way { IsUnderWay IsMoving self.old (view_of pass.old) }
        requires stage { self.old.stage ≡ Storing side }
        requires last { 5 ≤ side }
        ensures of { IsOf world.now pass.new }
        ensures turn { IsMoveTurn result self.old self.new (view_of pass.old) (view_of pass.new) }
    {
        store_last(world, pass, self.id, &self.to);
        self.stage = MoveStage::Leaving { answer: Ok(()) };
        self.made = Some(Made {
            pass: pass.number(),
            entry: Entry::Move {
                index: self.id.index(),
                bounds: self.to,
            },
        });
        Turn::More
    }

    /// The turn that lets the stripe go.
    fn leave(
        &mut self,
        world: &World,
        pass: &mut Pass,
        answer: Result<(), MoveRefused>,
    ) -> Turn<Result<(), MoveRefused>>
        requires of { IsOf world.now pass.old }
        requires under_way { IsUnderWay IsMoving self.old (view_of pass.old) }
        requires stage { self.old.stage ≡ Leaving answer }
        ensures of { IsOf world.now pass.new }
        ensures turn { IsMoveTurn result self.old self.new (view_of pass.old) (view_of pass.new) }
    {
        release(world, pass, world.stripe_of(self.id.index()));
        self.made = None;
        Turn::Done(answer)
    }
}
