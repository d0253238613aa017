//! Creating a body by turns.
ghost use Rattle.std.specs.Prelude.{◌≡◌, ℕ, ◌<◌, None, ⊤};
ghost use Rattle.core_state.specs.Lives.{IsFieldOf};
ghost use Rattle.pass_table.specs.declared.turn.Turn.TheVariants.{More};
ghost use Rattle.pass_table.specs.Passes.{view_of, IsOf, IsIdle};
ghost use Rattle.pass_table.specs.Turning.{IsUnderWay};
ghost use Rattle.body_slots.specs.declared.create_op.CreateStage.TheVariants.{Taking, Locked, First, Linked, Taken, Fields, Filled, Leaving};
ghost use Rattle.body_slots.specs.stages.Creating.{field_name, field_value, CreatesBody, IsCreateTurn};

use crate::answers::Full;
use crate::create_op::{CreateOp, CreateStage};
use body_ident::BodyId;
use core_state::Mode;
use fixed_box::FixBox;
use free_list::{load_head, load_link, take_off};
use pass_table::{Label, Operation, Pass, TakeOp, Turn, World, release, step_12, step_13, step_15};
use scene_model::{Entry, Made};
use word_map::{Name, StateWord};

/// How many words a body is given before it is created: its layer, its user number and its box.
pub(crate) const FIELDS: u32 = 8;

impl Operation for CreateOp {
    ghost use Rattle.body_slots.specs.stages.Creating.{CreatesBody, CreateAnswers, create_left, create_takes};
    ghost use Rattle.body_slots.specs.stages.Later.{creating-later};

    type Done = Result<BodyId, Full>;

    ghost under_way = { CreatesBody };

    ghost answers = { λ first start last next answer. CreateAnswers first start next answer };

    ghost left = { create_left };

    ghost takes = { create_takes };

    ghost reached = { λ operation. None };

    ghost last_label = { None };

    ghost refused = { λ answer. ⊥ };

    ghost says = { λ first start next label. ⊤ };

    ghost entry = { λ operation. operation.made };

    fn turn(&mut self, world: &World, pass: &mut Pass) -> Turn<Result<BodyId, Full>> {
        self.next_turn(world, pass)
    }

    fn label(&self) -> Option<Label> {
        None
    }

    fn made(&self) -> Option<&Made> {
        self.made.as_ref()
    }

    ghost may_look = { creating-later };
}

impl CreateOp {
    /// Begins to create a body; no step is made yet.
    pub fn new(world: &World, pass: &mut Pass, layer: u32, bounds: FixBox, user: u32) -> CreateOp
        requires idle { IsIdle world.now pass.old }
        requires in_layers { layer < world.now.map.layers }
        ensures pass { pass.new ≡ pass.old }
        ensures begun { (result.layer ≡ layer) × (result.bounds ≡ bounds) × (result.user ≡ user) }
        ensures under_way { CreatesBody result (view_of pass.old) result (view_of pass.new) }
    {
        let lock = world.index_lock();
        let taking = TakeOp::new(world, pass, lock, Mode::Write);
        CreateOp {
            layer,
            bounds,
            user,
            stage: CreateStage::Taking { taking },
            made: None,
        }
    }

    /// The turn of the stage that it is at.
    fn next_turn(&mut self, world: &World, pass: &mut Pass) -> Turn<Result<BodyId, Full>>
        requires of { IsOf world.now pass.old }
        requires under_way { IsUnderWay CreatesBody self.old (view_of pass.old) }
        ensures of { IsOf world.now pass.new }
        ensures turn { IsCreateTurn result self.old self.new (view_of pass.old) (view_of pass.new) }
    {
        match self.stage {
            CreateStage::Taking { taking } => self.take(world, pass, taking),
            CreateStage::Locked => self.load_head(world, pass),
            CreateStage::First { index } => self.load_link(world, pass, index),
            CreateStage::Linked { index, link } => self.take_off(world, pass, index, link),
            CreateStage::Taken { index } => self.load_state(world, pass, index),
            CreateStage::Fields {
                index,
                state,
                stored,
            } => self.store_field(world, pass, index, state, stored),
            CreateStage::Filled { index, state } => self.store_state(world, pass, index, state),
            CreateStage::Leaving { answer } => self.leave(world, pass, answer),
        }
    }

    /// Goes on to a stage, after a turn that made no entry.
    fn go_on(&mut self, stage: CreateStage) -> Turn<Result<BodyId, Full>>
        ensures more { result ≡ More }
        ensures stage { self.new ≡ record self.old { stage = stage; made = None } }
    {
        self.stage = stage;
        self.made = None;
        Turn::More
    }

    /// A turn of taking the lock.
    fn take(&mut self, world: &World, pass: &mut Pass, taking: TakeOp) -> Turn<Result<BodyId, Full>>
        requires of { IsOf world.now pass.old }
        requires under_way { IsUnderWay CreatesBody self.old (view_of pass.old) }
        requires stage { self.old.stage ≡ Taking taking }
        ensures of { IsOf world.now pass.new }
        ensures turn { IsCreateTurn result self.old self.new (view_of pass.old) (view_of pass.new) }
    {
        let mut taking = taking;
        match taking.turn(world, pass) {
            Turn::Done(()) => self.go_on(CreateStage::Locked),
            Turn::More => self.go_on(CreateStage::Taking { taking }),
            Turn::Again { lock, word } => {
                self.go_on(CreateStage::Taking { taking });
                Turn::Again { lock, word }
            }
        }
    }

    /// The turn that loads the head of the list.
    fn load_head(&mut self, world: &World, pass: &mut Pass) -> Turn<Result<BodyId, Full>>
        requires of { IsOf world.now pass.old }
        requires under_way { IsUnderWay CreatesBody self.old (view_of pass.old) }
        requires stage { self.old.stage ≡ Locked }
        ensures of { IsOf world.now pass.new }
        ensures turn { IsCreateTurn result self.old self.new (view_of pass.old) (view_of pass.new) }
    {
        let head = load_head(world, pass);
        if head == 0 {
            return self.go_on(CreateStage::Leaving {
                answer: Err(Full { head }),
            });
        }
        self.go_on(CreateStage::First {
            index: (head - 1) as u32,
        })
    }

    /// The turn that loads the link of the first index.
    fn load_link(
        &mut self,
        world: &World,
        pass: &mut Pass,
        index: u32,
    ) -> Turn<Result<BodyId, Full>>
        requires of { IsOf world.now pass.old }
        requires under_way { IsUnderWay CreatesBody self.old (view_of pass.old) }
        requires stage { self.old.stage ≡ First index }
        ensures of { IsOf world.now pass.new }
        ensures turn { IsCreateTurn result self.old self.new (view_of pass.old) (view_of pass.new) }
    {
        let link = load_link(world, pass, index);
        self.go_on(CreateStage::Linked { index, link })
    }

    /// The turn that takes the first index off.
    fn take_off(
        &mut self,
        world: &World,
        pass: &mut Pass,
        index: u32,
        link: u64,
    ) -> Turn<Result<BodyId, Full>>
        requires of { IsOf world.now pass.old }
        requires under_way { IsUnderWay CreatesBody self.old (view_of pass.old) }
        requires stage { self.old.stage ≡ Linked index link }
        ensures of { IsOf world.now pass.new }
        ensures turn { IsCreateTurn result self.old self.new (view_of pass.old) (view_of pass.new) }
    {
        take_off(world, pass, link);
        self.go_on(CreateStage::Taken { index })
    }

    /// The turn that loads the state word.
    fn load_state(
        &mut self,
        world: &World,
        pass: &mut Pass,
        index: u32,
    ) -> Turn<Result<BodyId, Full>>
        requires of { IsOf world.now pass.old }
        requires under_way { IsUnderWay CreatesBody self.old (view_of pass.old) }
        requires stage { self.old.stage ≡ Taken index }
        ensures of { IsOf world.now pass.new }
        ensures turn { IsCreateTurn result self.old self.new (view_of pass.old) (view_of pass.new) }
    {
        let state = step_15(world, pass, Name::State(index));
        self.go_on(CreateStage::Fields {
            index,
            state,
            stored: 0,
        })
    }

    /// The name and the value of a word that the body is given.
    #[inline(always)]
    pub(crate) fn field(&self, index: u32, number: u32) -> (Name, u64)
        requires below { number < 8 }
        ensures name { result.0 ≡ field_name index number }
        ensures value { result.1 ≡ field_value self.now number }
    {
        match number {
            0 => (Name::Layer(index), u64::from(self.layer)),
            1 => (Name::User(index), u64::from(self.user)),
            _ => {
                let side = number - 2;
                (
                    Name::BoxWord(index, side),
                    self.bounds.to_words()[side as usize],
                )
            }
        }
    }

    /// A turn that stores a word of the body.
    fn store_field(
        &mut self,
        world: &World,
        pass: &mut Pass,
        index: u32,
        state: u64,
        stored: u32,
    ) -> Turn<Result<BodyId, Full>>
        requires of { IsOf world.now pass.old }
        requires under_way { IsUnderWay CreatesBody self.old (view_of pass.old) }
        requires stage { self.old.stage ≡ Fields index state stored }
        ensures of { IsOf world.now pass.new }
        ensures turn { IsCreateTurn result self.old self.new (view_of pass.old) (view_of pass.new) }
    {
        let (name, value) = self.field(index, stored);
        step_12(world, pass, name, value);
        let stored = stored + 1;
        if stored == FIELDS {
            return self.go_on(CreateStage::Filled { index, state });
        }
        self.go_on(CreateStage::Fields {
            index,
            state,
            stored,
        })
    }

    /// The turn that creates the body.
    fn store_state(
        &mut self,
        world: &World,
        pass: &mut Pass,
        index: u32,
        state: u64,
    ) -> Turn<Result<BodyId, Full>>
        requires of { IsOf world.now pass.old }
        requires under_way { IsUnderWay CreatesBody self.old (view_of pass.old) }
        requires stage { self.old.stage ≡ Filled index state }
        ensures of { IsOf world.now pass.new }
        ensures turn { IsCreateTurn result self.old self.new (view_of pass.old) (view_of pass.new) }
    {
        let sequence = StateWord::sequence_of(state).wrapping_add(1);
        let word = StateWord::Live { sequence }.to_word();
        step_13(world, pass, Name::State(index), word);
        self.stage = CreateStage::Leaving {
            answer: Ok(BodyId::new(index, sequence)),
        };
        self.made = Some(Made {
            pass: pass.number(),
            entry: Entry::Create {
                index,
                layer: self.layer,
                bounds: self.bounds,
                user: self.user,
            },
        });
        Turn::More
    }

    /// The turn that lets the lock go.
    fn leave(
        &mut self,
        world: &World,
        pass: &mut Pass,
        answer: Result<BodyId, Full>,
    ) -> Turn<Result<BodyId, Full>>
        requires of { IsOf world.now pass.old }
        requires under_way { IsUnderWay CreatesBody self.old (view_of pass.old) }
        requires stage { self.old.stage ≡ Leaving answer }
        ensures of { IsOf world.now pass.new }
        ensures turn { IsCreateTurn result self.old self.new (view_of pass.old) (view_of pass.new) }
    {
        release(world, pass, world.index_lock());
        self.made = None;
        Turn::Done(answer)
    }
}
