//! What a caller of a world is.
ghost use Rattle.std.specs.Prelude.{◌≡◌, ◌<◌};
ghost use Rattle.core_state.specs.View.{IsPass};
ghost use Rattle.pass_table.specs.Bodies.{IsCurrent};
ghost use Rattle.pass_table.specs.Holding.{AreHeld};

use crate::lock_set::LockSet;
use crate::rule::Seat;

/// One of the callers of a world, who acts by single steps on its words.
///
/// Contracts see what it knows and has, `view_of`. It may go to another thread. A pass that is dropped keeps for good
/// what it has.
#[derive(Drop)]
pub struct Pass {
    pub(crate) seat: Seat,
    pub(crate) number: u32,
    /// The locks that it holds.
    pub(crate) held: LockSet,
    /// The locks that it took to write when it took them last.
    pub(crate) written: LockSet,
    pub(crate) walks: bool,
    ghost few: { number < 32 },
    ghost numbered: { IsPass seat.me.0 number },
    ghost holds: { AreHeld held written seat.me.0.locks },
    ghost walking: { walks ≡ seat.me.0.walk.is_on },
    ghost current: { ∥ IsCurrent seat.me.0 ∥₁ },
}
