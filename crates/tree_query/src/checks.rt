//! The check of all candidates by turns.
ghost use Rattle.std.specs.Prelude.{◌≡◌, ◌+◌, ◌<◌, ℕ, true, false};
ghost use Rattle.fixed_box.specs.declared.shape.Shape.{Shape};
ghost use Rattle.pass_table.specs.Turning.{IsUnderWay};
ghost use Rattle.pass_table.specs.Passes.{view_of, IsOf};
ghost use Rattle.tree_query.specs.declared.finder.Finder.{Finder};
ghost use Rattle.tree_query.specs.Finding.{room_of};
ghost use Rattle.tree_query.specs.stages.AllChecks.{going, AreInCheck, AreBegunSo, AreCheckTurn, HasSettled};

use crate::check_op::{Check, CheckStage};
use crate::finder::Finder;
use fixed_box::Shape;
use pass_table::{Pass, Turn, World};

/// The check of all candidates that a finder holds by turns, ascending by index. The check of the one that is at hand is
/// made in place.
#[derive(Clone, Copy)]
pub(crate) struct Checks {
    /// The candidates below this index were checked.
    pub(crate) next: u32,
    /// The first candidate from there on is being checked.
    pub(crate) is_at_one: bool,
    pub(crate) check: Check,
}

impl Checks {
    /// No candidate was checked.
    pub(crate) fn new() -> Checks
        ensures next { result.next ≡ 0 }
        ensures none { result.is_at_one ≡ false }
    {
        Checks {
            next: 0,
            is_at_one: false,
            check: Check {
                index: 0,
                stage: CheckStage::Striped,
                words: [0; 6],
            },
        }
    }

    /// The next turn: one step, or none where the next candidate is picked and where there is none left. Each candidate that
    /// was checked stays with the sequence number that was read, or is taken out.
    #[inline(always)]
    pub(crate) fn turn(
        &mut self,
        world: &World,
        pass: &mut Pass,
        shape: &Shape,
        mask: u8,
        finder: &mut Finder,
    ) -> Turn<()>
        requires of { IsOf world.now pass.old }
        requires under_way { IsUnderWay (AreInCheck shape.now mask) (going self.old finder.old) (view_of pass.old) }
        ensures of { IsOf world.now pass.new }
        ensures turn { AreCheckTurn shape.now mask result (going self.old finder.old) (going self.new finder.new) (view_of pass.old) (view_of pass.new) }
    {
        if self.is_at_one {
            self.check_on(world, pass, shape, mask, finder)
        } else {
            self.pick(world, pass, finder)
        }
    }

    /// The turn that picks the next candidate, or ends where there is none.
    #[inline(always)]
    fn pick(&mut self, world: &World, pass: &mut Pass, finder: &Finder) -> Turn<()>
        requires of { IsOf world.now pass.old }
        requires under_way { AreBegunSo (going self.old finder.now) (view_of pass.old) }
        requires stage { self.old.is_at_one ≡ false }
        ensures of { IsOf world.now pass.new }
        ensures turn { (shape : Shape) (mask : ℕ) → AreCheckTurn shape mask result (going self.old finder.now) (going self.new finder.now) (view_of pass.old) (view_of pass.new) }
    {
        match finder.first_from(self.next) {
            Some(index) => {
                self.check = Check::new(world, pass, index);
                self.is_at_one = true;
                Turn::More
            }
            None => Turn::Done(()),
        }
    }

    /// A turn of the check of the candidate that is at hand.
    #[inline(always)]
    fn check_on(
        &mut self,
        world: &World,
        pass: &mut Pass,
        shape: &Shape,
        mask: u8,
        finder: &mut Finder,
    ) -> Turn<()>
        requires of { IsOf world.now pass.old }
        requires under_way { IsUnderWay (AreInCheck shape.now mask) (going self.old finder.old) (view_of pass.old) }
        requires stage { self.old.is_at_one ≡ true }
        ensures of { IsOf world.now pass.new }
        ensures turn { AreCheckTurn shape.now mask result (going self.old finder.old) (going self.new finder.new) (view_of pass.old) (view_of pass.new) }
    {
        let index = self.check.index;
        match self.check.turn(world, pass, shape, mask) {
            Turn::Done(answer) => {
                settle(finder, index, answer);
                self.next = index + 1;
                self.is_at_one = false;
                Turn::More
            }
            Turn::More => Turn::More,
            Turn::Again { lock, word } => Turn::Again { lock, word },
        }
    }
}

/// The candidate that was checked stays with this sequence number, or is taken out.
#[inline(always)]
fn settle(finder: &mut Finder, index: u32, answer: Option<u8>)
    requires room { index < room_of finder.old }
    ensures { HasSettled answer index finder.old finder.new }
{
    match answer {
        Some(sequence) => finder.put(index, sequence),
        None => finder.remove(index),
    }
}
