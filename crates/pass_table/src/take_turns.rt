//! Taking a lock by turns.
ghost use Rattle.std.specs.Prelude.{◌≡◌, None, Some, ⊤};
ghost use Rattle.word_map.specs.declared.name.Name.TheVariants.{Lock};
ghost use Rattle.word_map.specs.Names.{IsName};
ghost use Rattle.core_state.specs.View.{HoldsNot};
ghost use Rattle.core_state.specs.declared.view.View.{View};
ghost use Rattle.pass_table.specs.declared.take_op.TakeOp.{TakeOp};
ghost use Rattle.pass_table.specs.TakeTurns.{taking_of, IsTaking, HasTaken, turns_left};
ghost use Rattle.pass_table.specs.Turning.{Turned, LoadsNow, GoesOn, Answers, IsUnderWay, AtMostOneStep, MadeBy};
ghost use Rattle.pass_table.specs.Passes.{view_of, IsOf};

use crate::label::Label;
use crate::locks;
use crate::operation::Operation;
use crate::pass::Pass;
use crate::take_op::TakeOp;
use crate::turn::Turn;
use crate::world::World;
use core_state::Mode;
use scene_model::Made;

impl Operation for TakeOp {
    ghost use Rattle.pass_table.specs.TakeTurns.{taking-later};

    type Done = ();

    ghost under_way = { IsTaking };

    ghost answers = { λ first start last next answer. HasTaken first start next };

    ghost left = { turns_left };

    ghost takes = { Some };

    ghost reached = { λ operation. None };

    ghost last_label = { None };

    ghost refused = { λ answer. ⊥ };

    ghost says = { λ first start next label. ⊤ };

    ghost entry = { λ operation. None };

    #[inline(always)]
    fn turn(&mut self, world: &World, pass: &mut Pass) -> Turn<()> {
        match self.loaded {
            None => self.load(world, pass),
            Some(word) => self.exchange(world, pass, word),
        }
    }

    fn label(&self) -> Option<Label> {
        None
    }

    fn made(&self) -> Option<&Made> {
        None
    }

    ghost may_look = { taking-later };
}

impl TakeOp {
    /// Begins to take a lock that the pass does not hold; no step is made yet.
    pub fn new(world: &World, pass: &mut Pass, lock: u32, mode: Mode) -> TakeOp
        requires of { IsOf world.now pass.old }
        requires named { IsName world.now.map (Lock lock) }
        requires free { HoldsNot (view_of pass.old) lock }
        ensures pass { pass.new ≡ pass.old }
        ensures begun { result ≡ taking_of lock mode }
        ensures under_way { IsTaking (taking_of lock mode) (view_of pass.old) result (view_of pass.new) }
    {
        TakeOp {
            lock,
            mode,
            loaded: None,
        }
    }

    /// The turn that loads the lock's word.
    #[inline(always)]
    fn load(&mut self, world: &World, pass: &mut Pass) -> Turn<()>
        requires of { IsOf world.now pass.old }
        requires under_way { IsUnderWay IsTaking self.old (view_of pass.old) }
        requires first { self.old.loaded ≡ None }
        ensures of { IsOf world.now pass.new }
        ensures step { AtMostOneStep (view_of pass.old) (view_of pass.new) }
        ensures made { MadeBy (view_of pass.old) (view_of pass.new) None }
        ensures turned { Turned result (view_of pass.old) (view_of pass.new) (Some self.old) (turns_left self.old) (turns_left self.new) }
        ensures loads { GoesOn result (LoadsNow (view_of pass.old) (view_of pass.new) (Some self.new)) }
        ensures keeps { (first : TakeOp) (start : View) → IsTaking first start self.old (view_of pass.old) → GoesOn result (IsTaking first start self.new (view_of pass.new)) }
        ensures answers { (first : TakeOp) (start : View) → IsTaking first start self.old (view_of pass.old) → Answers result (λ answer. HasTaken first start (view_of pass.new)) }
    {
        let word = locks::load_word(world, pass, self.lock);
        if locks::excludes(self.mode, word) {
            return Turn::Again {
                lock: self.lock,
                word,
            };
        }
        self.loaded = Some(word);
        Turn::More
    }

    /// The turn that exchanges the word that the turn before loaded.
    #[inline(always)]
    fn exchange(&mut self, world: &World, pass: &mut Pass, word: u64) -> Turn<()>
        requires of { IsOf world.now pass.old }
        requires under_way { IsUnderWay IsTaking self.old (view_of pass.old) }
        requires second { self.old.loaded ≡ Some word }
        ensures of { IsOf world.now pass.new }
        ensures step { AtMostOneStep (view_of pass.old) (view_of pass.new) }
        ensures made { MadeBy (view_of pass.old) (view_of pass.new) None }
        ensures turned { Turned result (view_of pass.old) (view_of pass.new) (Some self.old) (turns_left self.old) (turns_left self.new) }
        ensures loads { GoesOn result (LoadsNow (view_of pass.old) (view_of pass.new) (Some self.new)) }
        ensures keeps { (first : TakeOp) (start : View) → IsTaking first start self.old (view_of pass.old) → GoesOn result (IsTaking first start self.new (view_of pass.new)) }
        ensures answers { (first : TakeOp) (start : View) → IsTaking first start self.old (view_of pass.old) → Answers result (λ answer. HasTaken first start (view_of pass.new)) }
    {
        match locks::exchange(world, pass, self.lock, self.mode, word) {
            Ok(()) => Turn::Done(()),
            Err(_) => {
                self.loaded = None;
                Turn::More
            }
        }
    }
}
