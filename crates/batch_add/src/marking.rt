//! Marking the bodies of a batch, turn by turn: body by body, in the order of the ids, under the body's stripe.
ghost use Rattle.std.specs.Prelude.{◌≡◌, ◌+◌, ◌*◌, ◌^◌, ◌<◌, ◌≤◌, ℕ, List, None, All, length, ⊤};
ghost use Rattle.word_map.specs.Names.{stripe_of};
ghost use Rattle.core_state.specs.declared.view.Batch.{Batch};
ghost use Rattle.pass_table.specs.declared.turn.Turn.TheVariants.{More};
ghost use Rattle.pass_table.specs.Holding.{IsAtRest};
ghost use Rattle.pass_table.specs.Passes.{view_of, IsOf};
ghost use Rattle.pass_table.specs.Turning.{IsUnderWay};
ghost use Rattle.pass_table.specs.TakeTurns.{LoadedNone};
ghost use Rattle.batch_add.specs.declared.mark_op.MarkStage.TheVariants.{Looking, Outside, Sides, Boxed, Leaving, Refusing};
ghost use Rattle.body_look.specs.declared.look_op.LookDepth.TheVariants.{Phase as ItsPhase};
ghost use Rattle.body_look.specs.Found.{IsAsked};
ghost use Rattle.batch_add.specs.stages.Marking.{marks_of, after_look, current, IsForNewest, IsMarking, IsMarkTurn, Notes, mark_left, mark_takes};

use crate::mark_op::{MarkRefused, MarkStage, Marking};
use body_ident::BodyId;
use body_look::{BodyFound, LookDepth, LookOp, load_layer, load_side};
use core_state::Mode;
use fixed_box::FixBox;
use pass_table::{Label, Operation, Pass, Turn, World, release, step_19};
use scene_model::{Entry, Made};
use word_map::{Name, PhaseWord};

impl Operation for Marking {
    ghost use Rattle.batch_add.specs.stages.Marking.{IsMarking, HasMadeMarks, mark_left, mark_takes};
    ghost use Rattle.batch_add.specs.stages.MarkLater.{marking-later};

    type Done = Result<(), MarkRefused>;

    ghost under_way = { IsMarking };

    ghost answers = { HasMadeMarks };

    ghost left = { mark_left };

    ghost takes = { mark_takes };

    ghost reached = { λ operation. None };

    ghost last_label = { None };

    ghost refused = { λ answer. ⊥ };

    ghost says = { λ first start next label. ⊤ };

    ghost entry = { λ operation. operation.made };

    fn turn(&mut self, world: &World, pass: &mut Pass) -> Turn<Result<(), MarkRefused>> {
        self.next_turn(world, pass)
    }

    fn label(&self) -> Option<Label> {
        None
    }

    fn made(&self) -> Option<&Made> {
        self.made.as_ref()
    }

    ghost may_look = { marking-later };
}

/// The stage after a look at a body that has found this: where the body is out, its layer is loaded next.
pub(crate) fn stage_of(found: BodyFound) -> MarkStage
    requires asked { IsAsked ItsPhase found }
    ensures { result ≡ after_look found }
{
    let refused = match found {
        BodyFound::Gone { state } => MarkRefused::Gone { state },
        BodyFound::Live => unreachable!(),
        BodyFound::Out => return MarkStage::Outside,
        BodyFound::In => MarkRefused::AlreadyIn {
            phase: PhaseWord::In.to_word(),
        },
        BodyFound::Held { word, .. } => MarkRefused::Held { slot: word },
        BodyFound::Joined { slot, .. } => MarkRefused::AlreadyIn {
            phase: PhaseWord::Joined { slot }.to_word(),
        },
    };
    MarkStage::Refusing { refused }
}

impl Marking {
    /// Begins to mark the bodies of some ids for the newest batch; no step is made yet.
    pub(crate) fn new(
        world: &World,
        pass: &mut Pass,
        layer: u32,
        slot: u32,
        ids: Vec<BodyId>,
        bodies: Vec<(u32, FixBox)>,
    ) -> Marking
        requires of { IsOf world.now pass.old }
        requires some { 0 < length ids.items }
        requires below { All (λ id. id.index < world.now.map.bodies) ids.items }
        requires room { length bodies.items ≡ length ids.items }
        requires rest { IsAtRest (view_of pass.old) }
        requires newest { (before : List Batch) × (batch : Batch) × IsForNewest layer slot (view_of pass.old) before batch }
        ensures pass { pass.new ≡ pass.old }
        ensures layer { result.layer ≡ layer }
        ensures slot { result.slot ≡ slot }
        ensures ids { result.ids.items ≡ ids.items }
        ensures made { result.made ≡ None }
        ensures left { mark_left result ≤ 15 * length ids.items }
        ensures unloaded { LoadedNone (mark_takes result) }
        ensures under_way { IsMarking result (view_of pass.old) result (view_of pass.new) }
    {
        let look = LookOp::new(world, pass, ids[0], Mode::Write, LookDepth::Phase);
        Marking {
            layer,
            slot,
            ids,
            bodies,
            marked: 0,
            look,
            stage: MarkStage::Looking,
            made: None,
        }
    }

    /// The turn of the stage that it is at.
    fn next_turn(&mut self, world: &World, pass: &mut Pass) -> Turn<Result<(), MarkRefused>>
        requires of { IsOf world.now pass.old }
        requires under_way { IsUnderWay IsMarking self.old (view_of pass.old) }
        ensures of { IsOf world.now pass.new }
        ensures turn { IsMarkTurn result self.old self.new (view_of pass.old) (view_of pass.new) }
    {
        match self.stage {
            MarkStage::Looking => self.look(world, pass),
            MarkStage::Outside => self.load_layer(world, pass),
            MarkStage::Sides { words, loaded } => self.load_side(world, pass, words, loaded),
            MarkStage::Boxed { bounds } => self.mark(world, pass, bounds),
            MarkStage::Leaving { stripe } => self.leave(world, pass, stripe),
            MarkStage::Refusing { refused } => self.refuse(world, pass, refused),
        }
    }

    /// The id of the next body.
    pub(crate) fn id(&self) -> BodyId
        requires next { self.now.marked < length self.now.ids.items }
        ensures { result ≡ current (marks_of self.now) }
    {
        self.ids[self.marked as usize]
    }

    /// The stripe of the next body.
    fn stripe(&self, world: &World) -> u32
        requires next { self.now.marked < length self.now.ids.items }
        ensures value { result ≡ stripe_of world.now.map (current (marks_of self.now)).index }
        ensures below { result < world.now.map.stripes }
    {
        world.stripe_of(self.id().index())
    }

    /// Goes on to a stage, after a turn that made no entry.
    fn go_on(&mut self, stage: MarkStage) -> Turn<Result<(), MarkRefused>>
        ensures more { result ≡ More }
        ensures stage { self.new ≡ record self.old { stage = stage; made = None } }
    {
        self.stage = stage;
        self.made = None;
        Turn::More
    }

    /// A turn of looking at the next body. Where it is out, its layer comes next, and else it is refused.
    #[inline(always)]
    fn look(&mut self, world: &World, pass: &mut Pass) -> Turn<Result<(), MarkRefused>>
        requires of { IsOf world.now pass.old }
        requires under_way { IsUnderWay IsMarking self.old (view_of pass.old) }
        requires stage { self.old.stage ≡ Looking }
        ensures of { IsOf world.now pass.new }
        ensures turn { IsMarkTurn result self.old self.new (view_of pass.old) (view_of pass.new) }
    {
        match self.look.turn(world, pass) {
            Turn::Done(found) => self.go_on(stage_of(found)),
            Turn::More => {
                self.made = None;
                Turn::More
            }
            Turn::Again { lock, word } => {
                self.made = None;
                Turn::Again { lock, word }
            }
        }
    }

    /// The turn that loads the layer of a body that is out.
    fn load_layer(&mut self, world: &World, pass: &mut Pass) -> Turn<Result<(), MarkRefused>>
        requires of { IsOf world.now pass.old }
        requires under_way { IsUnderWay IsMarking self.old (view_of pass.old) }
        requires stage { self.old.stage ≡ Outside }
        ensures of { IsOf world.now pass.new }
        ensures turn { IsMarkTurn result self.old self.new (view_of pass.old) (view_of pass.new) }
    {
        let layer = load_layer(world, pass, self.id());
        if layer == self.layer {
            return self.go_on(MarkStage::Sides {
                words: [0; 6],
                loaded: 0,
            });
        }
        self.go_on(MarkStage::Refusing {
            refused: MarkRefused::WrongLayer {
                layer: u64::from(layer),
            },
        })
    }

    /// A turn that loads a side of the box. After the last one the box is known.
    fn load_side(
        &mut self,
        world: &World,
        pass: &mut Pass,
        words: [u64; 6],
        loaded: u32,
    ) -> Turn<Result<(), MarkRefused>>
        requires of { IsOf world.now pass.old }
        requires under_way { IsUnderWay IsMarking self.old (view_of pass.old) }
        requires stage { self.old.stage ≡ Sides words loaded }
        ensures of { IsOf world.now pass.new }
        ensures turn { IsMarkTurn result self.old self.new (view_of pass.old) (view_of pass.new) }
    {
        let mut words = words;
        words[loaded as usize] = load_side(world, pass, self.id(), loaded);
        if loaded < 5 {
            return self.go_on(MarkStage::Sides {
                words,
                loaded: loaded + 1,
            });
        }
        match FixBox::from_words(words) {
            Some(bounds) => self.go_on(MarkStage::Boxed { bounds }),
            None => unreachable!(),
        }
    }

    /// Notes a body that was marked by the pass with this number.
    fn note(&mut self, number: u32, index: u32, bounds: FixBox, stripe: u32)
        requires next { self.old.marked < length self.old.ids.items }
        requires room { length self.old.bodies.items ≡ length self.old.ids.items }
        requires fits { self.old.marked + 1 < 2 ^ 32 }
        ensures { Notes self.old self.new number index bounds stripe }
    {
        self.bodies[self.marked as usize] = (index, bounds);
        self.marked += 1;
        self.stage = MarkStage::Leaving { stripe };
        self.made = Some(Made {
            pass: number,
            entry: Entry::Mark { index },
        });
    }

    /// The turn that marks the body.
    fn mark(
        &mut self,
        world: &World,
        pass: &mut Pass,
        bounds: FixBox,
    ) -> Turn<Result<(), MarkRefused>>
        requires of { IsOf world.now pass.old }
        requires under_way { IsUnderWay IsMarking self.old (view_of pass.old) }
        requires stage { self.old.stage ≡ Boxed bounds }
        ensures of { IsOf world.now pass.new }
        ensures turn { IsMarkTurn result self.old self.new (view_of pass.old) (view_of pass.new) }
    {
        let index = self.id().index();
        let stripe = self.stripe(world);
        let joined = PhaseWord::Joined { slot: self.slot };
        step_19(world, pass, Name::Phase(index), joined.to_word());
        self.note(pass.number(), index, bounds, stripe);
        Turn::More
    }

    /// The turn that lets the stripe of a body go that is marked. After the last one all are.
    fn leave(
        &mut self,
        world: &World,
        pass: &mut Pass,
        stripe: u32,
    ) -> Turn<Result<(), MarkRefused>>
        requires of { IsOf world.now pass.old }
        requires under_way { IsUnderWay IsMarking self.old (view_of pass.old) }
        requires stage { self.old.stage ≡ Leaving stripe }
        ensures of { IsOf world.now pass.new }
        ensures turn { IsMarkTurn result self.old self.new (view_of pass.old) (view_of pass.new) }
    {
        release(world, pass, stripe);
        if self.marked as usize == self.ids.len() {
            self.made = None;
            return Turn::Done(Ok(()));
        }
        self.look = LookOp::new(world, pass, self.id(), Mode::Write, LookDepth::Phase);
        self.go_on(MarkStage::Looking)
    }

    /// The turn that lets the stripe of a body go that is not marked.
    fn refuse(
        &mut self,
        world: &World,
        pass: &mut Pass,
        refused: MarkRefused,
    ) -> Turn<Result<(), MarkRefused>>
        requires of { IsOf world.now pass.old }
        requires under_way { IsUnderWay IsMarking self.old (view_of pass.old) }
        requires stage { self.old.stage ≡ Refusing refused }
        ensures of { IsOf world.now pass.new }
        ensures turn { IsMarkTurn result self.old self.new (view_of pass.old) (view_of pass.new) }
    {
        release(world, pass, self.stripe(world));
        self.made = None;
        Turn::Done(Err(refused))
    }
}
