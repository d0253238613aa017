//! Operations that are made turn by turn.
ghost use Rattle.std.specs.Prelude.{◌≡◌, option_copied};
ghost use Rattle.core_state.specs.declared.view.View.{View};
ghost use Rattle.pass_table.specs.Passes.{view_of, IsOf};
ghost use Rattle.pass_table.specs.Labels.{EndsAfter, SaysNew};
ghost use Rattle.pass_table.specs.Turning.{Turned, LoadsNow, Labelled, GoesOn, Answers, IsUnderWay, AtMostOneStep, MadeBy};

use crate::label::Label;
use crate::pass::Pass;
use crate::turn::Turn;
use crate::world::World;
use scene_model::Made;

/// An operation on a world that one pass makes turn by turn, so that a caller decides when each turn is made.
///
/// A turn makes at most one atomic step, and never waits. Between two turns the pass may look and meet other passes.
/// `drive` makes all turns.
pub trait Operation {
    ghost use Rattle.std.specs.Prelude.{ℕ, Option};
    ghost use Rattle.scene_model.specs.declared.entry.Made.{Made};
    ghost use Rattle.core_state.specs.declared.view.View.{View};
    ghost use Rattle.pass_table.specs.Knowing.{KnowsMore};
    ghost use Rattle.pass_table.specs.declared.take_op.TakeOp.{TakeOp};

    /// What the operation answers.
    type Done;

    /// The operation, begun as the first one when its pass had the first view, may go on as the second one with the
    /// second view.
    ghost under_way: { Self → View → Self → View → Type 0 };

    /// What the answer says: of the operation and the view with which it was begun, and of both after its last turn.
    ghost answers: { Self → View → Self → View → Self.Done → Type 0 };

    /// How many turns are left, if none has to be made again.
    ghost left: { Self → ℕ };

    /// The lock that it is taking now, in which mode, and the word that it loaded.
    ghost takes: { Self → Option TakeOp };

    /// The last label that it reached.
    ghost reached: { Self → Option ℕ };

    /// The number of the last label of such an operation, or none where it has no label.
    ghost last_label: { Option ℕ };

    /// Which answers are refusals.
    ghost refused: { Self.Done → Type 0 };

    /// What a label says: of the operation and the view with which it was begun, of the view now, and of its number.
    ghost says: { Self → View → View → ℕ → Type 0 };

    /// The entry that the last turn made.
    ghost entry: { Self → Option Made };

    /// The next turn. One that reaches a label answers `More`.
    fn turn(&mut self, world: &World, pass: &mut Pass) -> Turn<Self::Done>
        requires of { IsOf world.now pass.old }
        requires under_way { IsUnderWay under_way self.old (view_of pass.old) }
        ensures of { IsOf world.now pass.new }
        ensures step { AtMostOneStep (view_of pass.old) (view_of pass.new) }
        ensures made { MadeBy (view_of pass.old) (view_of pass.new) (entry self.new) }
        ensures turned { Turned result (view_of pass.old) (view_of pass.new) (takes self.old) (left self.old) (left self.new) }
        ensures loads { GoesOn result (LoadsNow (view_of pass.old) (view_of pass.new) (takes self.new)) }
        ensures labelled { Labelled result (reached self.old) (reached self.new) }
        ensures ends { EndsAfter result refused last_label (reached self.old) }
        ensures says { (first : Self) (start : View) → under_way first start self.old (view_of pass.old) → SaysNew (reached self.old) (reached self.new) (says first start (view_of pass.new)) }
        ensures goes_on { GoesOn result (IsUnderWay under_way self.new (view_of pass.new)) }
        ensures keeps { (first : Self) (start : View) → under_way first start self.old (view_of pass.old) → GoesOn result (under_way first start self.new (view_of pass.new)) }
        ensures answers { (first : Self) (start : View) → under_way first start self.old (view_of pass.old) → Answers result (answers first start self.new (view_of pass.new)) };

    /// The last label that was reached. A label was reached where this is at least its number.
    fn label(&self) -> Option<Label>
        ensures { result ≡ reached self.now };

    /// The entry that the last turn made.
    fn made(&self) -> Option<&Made>
        ensures { option_copied result ≡ entry self.now };

    /// A look or a meeting between two turns does no harm.
    ghost may_look: { (first : Self) (start : View) (operation : Self) (view next : View) → KnowsMore view next → under_way first start operation view → under_way first start operation next };
}
