//! How seats are cut and joined.
use atomic_table::{Join, Split};
use core_state::View;

/// Kind 1: a pass is opened.
pub(crate) struct Open;

impl Split<View> for Open {
    ghost use Rattle.pass_table.specs.Seating.{own_view, next_view};

    ghost left = { own_view };

    ghost right = { next_view };
}

/// Kind 2: a visitor leaves a pass.
pub(crate) struct Visit;

impl Split<View> for Visit {
    ghost use Rattle.core_state.specs.Seats.{visitor_of};

    ghost left = { λ view. view };

    ghost right = { visitor_of };
}

/// Kind 3: a visitor joins a pass.
pub(crate) struct Meet;

impl Join<View> for Meet {
    ghost use Rattle.core_state.specs.Seats.{joined_view, spent_view};

    ghost both = { joined_view };

    ghost spent = { spent_view };
}
