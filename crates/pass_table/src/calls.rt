//! What a pass tells of itself.
ghost use Rattle.std.specs.Prelude.{◌≡◌, ◌↔◌, ℕ, false, true};
ghost use Rattle.core_state.specs.View.{IsPass, HoldsNot};
ghost use Rattle.pass_table.specs.Holding.{IsAtRest};
ghost use Rattle.pass_table.specs.Passes.{view_of};

use crate::pass::Pass;

impl Pass {
    /// The number of the pass: 0 for the first one of its world. No other pass of the world has it.
    pub fn number(&self) -> u32
        ensures { IsPass (view_of self.now) result }
    {
        self.number
    }

    /// Whether the pass holds no lock and is not walking. If so, nothing that it began is half done, and it may begin a
    /// call that waits.
    pub fn is_idle(&self) -> bool
        ensures idle { (result ≡ true) ↔ (((lock : ℕ) → HoldsNot (view_of self.now) lock) × ((view_of self.now).walk.is_on ≡ false)) }
        ensures rest { result ≡ true → IsAtRest (view_of self.now) }
    {
        !self.walks && self.held.is_empty()
    }
}
