//! The check of a candidate by turns.
ghost use Rattle.std.specs.Prelude.{◌≡◌, ◌<◌, ℕ};
ghost use Rattle.fixed_box.specs.declared.shape.Shape.{Shape};
ghost use Rattle.pass_table.specs.declared.turn.Turn.TheVariants.{More};
ghost use Rattle.pass_table.specs.TakeTurns.{LoadedNone};
ghost use Rattle.pass_table.specs.Turning.{IsUnderWay};
ghost use Rattle.pass_table.specs.Passes.{view_of, IsOf, IsIdle};
ghost use Rattle.tree_query.specs.declared.check_op.CheckStage.TheVariants.{Taking, Striped, Live, Joining, Placed, Inside, Sides, Leaving};
ghost use Rattle.tree_query.specs.stages.CandidateCheck.{check_left, check_takes, IsInCheck, IsBegunSo, IsCheckTurn};

use crate::check_loads::{load_of_body, load_of_slot};
use crate::check_op::{Check, CheckStage};
use crate::checking::is_asked;
use crate::reading::is_touching;
use core_state::Mode;
use fixed_box::Shape;
use pass_table::{Operation, Pass, TakeOp, Turn, World, release};
use word_map::{Name, PhaseWord, SlotWord, StateWord};

impl Check {
    /// Begins the check of the body at an index; no step is made yet.
    #[inline(always)]
    pub(crate) fn new(world: &World, pass: &mut Pass, index: u32) -> Check
        requires idle { IsIdle world.now pass.old }
        requires below { index < world.now.map.bodies }
        ensures pass { pass.new ≡ pass.old }
        ensures index { result.index ≡ index }
        ensures left { check_left result ≡ 13 }
        ensures unloaded { LoadedNone (check_takes result) }
        ensures under_way { (shape : Shape) (mask : ℕ) → IsInCheck shape mask result (view_of pass.old) result (view_of pass.new) }
    {
        let stripe = world.stripe_of(index);
        let taking = TakeOp::new(world, pass, stripe, Mode::Read);
        Check {
            index,
            stage: CheckStage::Taking { taking },
            words: [0; 6],
        }
    }

    /// The next turn: one step, or none where the stripe is held by a pass that writes under it. The last one answers the
    /// sequence number of the body that is live at the index, where it is a hit, and else nothing.
    #[inline(always)]
    pub(crate) fn turn(
        &mut self,
        world: &World,
        pass: &mut Pass,
        shape: &Shape,
        mask: u8,
    ) -> Turn<Option<u8>>
        requires of { IsOf world.now pass.old }
        requires under_way { IsUnderWay (IsInCheck shape.now mask) self.old (view_of pass.old) }
        ensures of { IsOf world.now pass.new }
        ensures turn { IsCheckTurn shape.now mask result self.old self.new (view_of pass.old) (view_of pass.new) }
    {
        match self.stage {
            CheckStage::Taking { taking } => self.take(world, pass, taking),
            CheckStage::Striped => self.load_state(world, pass),
            CheckStage::Live { sequence } => self.load_phase(world, pass, sequence),
            CheckStage::Joining { sequence, slot } => {
                self.load_layer_joined(world, pass, sequence, slot)
            }
            CheckStage::Placed {
                sequence,
                slot,
                layer,
            } => self.load_slot(world, pass, mask, sequence, slot, layer),
            CheckStage::Inside { sequence } => self.load_layer(world, pass, mask, sequence),
            CheckStage::Sides { sequence, loaded } => {
                self.load_side(world, pass, shape, sequence, loaded)
            }
            CheckStage::Leaving { answer } => self.leave(world, pass, answer),
        }
    }

    /// Goes on to a stage.
    #[inline(always)]
    fn go_on(&mut self, stage: CheckStage) -> Turn<Option<u8>>
        ensures more { result ≡ More }
        ensures stage { self.new ≡ record self.old { stage = stage } }
    {
        self.stage = stage;
        Turn::More
    }

    /// A turn of taking the stripe.
    #[inline(always)]
    fn take(&mut self, world: &World, pass: &mut Pass, taking: TakeOp) -> Turn<Option<u8>>
        requires of { IsOf world.now pass.old }
        requires under_way { IsBegunSo self.old (view_of pass.old) }
        requires stage { self.old.stage ≡ Taking taking }
        ensures of { IsOf world.now pass.new }
        ensures turn { (shape : Shape) (mask : ℕ) → IsCheckTurn shape mask result self.old self.new (view_of pass.old) (view_of pass.new) }
    {
        let mut taking = taking;
        match taking.turn(world, pass) {
            Turn::Done(()) => self.go_on(CheckStage::Striped),
            Turn::More => self.go_on(CheckStage::Taking { taking }),
            Turn::Again { lock, word } => {
                self.go_on(CheckStage::Taking { taking });
                Turn::Again { lock, word }
            }
        }
    }

    /// The turn that loads the state word: it tells whether a body is live at the index, and which.
    #[inline(always)]
    fn load_state(&mut self, world: &World, pass: &mut Pass) -> Turn<Option<u8>>
        requires of { IsOf world.now pass.old }
        requires under_way { IsBegunSo self.old (view_of pass.old) }
        requires stage { self.old.stage ≡ Striped }
        ensures of { IsOf world.now pass.new }
        ensures turn { (shape : Shape) (mask : ℕ) → IsCheckTurn shape mask result self.old self.new (view_of pass.old) (view_of pass.new) }
    {
        let state = load_of_body(world, pass, self.index, Name::State(self.index));
        let sequence = StateWord::sequence_of(state);
        if state == (StateWord::Live { sequence }).to_word() {
            return self.go_on(CheckStage::Live { sequence });
        }
        self.go_on(CheckStage::Leaving { answer: None })
    }

    /// The turn that loads the phase word.
    #[inline(always)]
    fn load_phase(&mut self, world: &World, pass: &mut Pass, sequence: u8) -> Turn<Option<u8>>
        requires of { IsOf world.now pass.old }
        requires under_way { IsBegunSo self.old (view_of pass.old) }
        requires stage { self.old.stage ≡ Live sequence }
        ensures of { IsOf world.now pass.new }
        ensures turn { (shape : Shape) (mask : ℕ) → IsCheckTurn shape mask result self.old self.new (view_of pass.old) (view_of pass.new) }
    {
        let word = load_of_body(world, pass, self.index, Name::Phase(self.index));
        match PhaseWord::from_word(word) {
            PhaseWord::Out => self.go_on(CheckStage::Leaving { answer: None }),
            PhaseWord::In => self.go_on(CheckStage::Inside { sequence }),
            PhaseWord::Joined { slot } => self.go_on(CheckStage::Joining { sequence, slot }),
        }
    }

    /// The turn that loads the layer of a body whose phase word names a slot.
    #[inline(always)]
    fn load_layer_joined(
        &mut self,
        world: &World,
        pass: &mut Pass,
        sequence: u8,
        slot: u32,
    ) -> Turn<Option<u8>>
        requires of { IsOf world.now pass.old }
        requires under_way { IsBegunSo self.old (view_of pass.old) }
        requires stage { self.old.stage ≡ Joining sequence slot }
        ensures of { IsOf world.now pass.new }
        ensures turn { (shape : Shape) (mask : ℕ) → IsCheckTurn shape mask result self.old self.new (view_of pass.old) (view_of pass.new) }
    {
        let layer = load_of_body(world, pass, self.index, Name::Layer(self.index)) as u32;
        self.go_on(CheckStage::Placed {
            sequence,
            slot,
            layer,
        })
    }

    /// The turn that loads the slot word: a slot that names no tree yet is one for whose batch the body is held. Where the
    /// layer is asked, the box comes next.
    #[inline(always)]
    fn load_slot(
        &mut self,
        world: &World,
        pass: &mut Pass,
        mask: u8,
        sequence: u8,
        slot: u32,
        layer: u32,
    ) -> Turn<Option<u8>>
        requires of { IsOf world.now pass.old }
        requires under_way { IsBegunSo self.old (view_of pass.old) }
        requires stage { self.old.stage ≡ Placed sequence slot layer }
        ensures of { IsOf world.now pass.new }
        ensures turn { (shape : Shape) → IsCheckTurn shape mask result self.old self.new (view_of pass.old) (view_of pass.new) }
    {
        let word = load_of_slot(world, pass, layer, slot);
        if !SlotWord::names_tree(word) {
            return self.go_on(CheckStage::Leaving { answer: None });
        }
        if !is_asked(mask, layer) {
            return self.go_on(CheckStage::Leaving { answer: None });
        }
        self.go_on(CheckStage::Sides {
            sequence,
            loaded: 0,
        })
    }

    /// The turn that loads the layer of a body that is in. Where it is asked, the box comes next.
    #[inline(always)]
    fn load_layer(
        &mut self,
        world: &World,
        pass: &mut Pass,
        mask: u8,
        sequence: u8,
    ) -> Turn<Option<u8>>
        requires of { IsOf world.now pass.old }
        requires under_way { IsBegunSo self.old (view_of pass.old) }
        requires stage { self.old.stage ≡ Inside sequence }
        ensures of { IsOf world.now pass.new }
        ensures turn { (shape : Shape) → IsCheckTurn shape mask result self.old self.new (view_of pass.old) (view_of pass.new) }
    {
        let layer = load_of_body(world, pass, self.index, Name::Layer(self.index)) as u32;
        if !is_asked(mask, layer) {
            return self.go_on(CheckStage::Leaving { answer: None });
        }
        self.go_on(CheckStage::Sides {
            sequence,
            loaded: 0,
        })
    }

    /// A turn that loads a side of the box. The last one tells whether the shape touches it.
    #[inline(always)]
    fn load_side(
        &mut self,
        world: &World,
        pass: &mut Pass,
        shape: &Shape,
        sequence: u8,
        loaded: u32,
    ) -> Turn<Option<u8>>
        requires of { IsOf world.now pass.old }
        requires under_way { IsBegunSo self.old (view_of pass.old) }
        requires stage { self.old.stage ≡ Sides sequence loaded }
        ensures of { IsOf world.now pass.new }
        ensures turn { (mask : ℕ) → IsCheckTurn shape.now mask result self.old self.new (view_of pass.old) (view_of pass.new) }
    {
        let word = load_of_body(world, pass, self.index, Name::BoxWord(self.index, loaded));
        self.words[loaded as usize] = word;
        if loaded < 5 {
            return self.go_on(CheckStage::Sides {
                sequence,
                loaded: loaded + 1,
            });
        }
        if is_touching(shape, self.words) {
            return self.go_on(CheckStage::Leaving {
                answer: Some(sequence),
            });
        }
        self.go_on(CheckStage::Leaving { answer: None })
    }

    /// The turn that lets the stripe go.
    #[inline(always)]
    fn leave(&mut self, world: &World, pass: &mut Pass, answer: Option<u8>) -> Turn<Option<u8>>
        requires of { IsOf world.now pass.old }
        requires under_way { IsBegunSo self.old (view_of pass.old) }
        requires stage { self.old.stage ≡ Leaving answer }
        ensures of { IsOf world.now pass.new }
        ensures turn { (shape : Shape) (mask : ℕ) → IsCheckTurn shape mask result self.old self.new (view_of pass.old) (view_of pass.new) }
    {
        release(world, pass, world.stripe_of(self.index));
        Turn::Done(answer)
    }
}
