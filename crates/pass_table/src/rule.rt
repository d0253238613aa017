//! The table of a world, and its rule.
use atomic_table::{Shared, TableRule};
use core_state::View;
use word_map::Config;

/// The rule of a world's table: its words and views are those of a core that meets all invariants.
pub struct CoreRule;

impl TableRule<(), View, Config> for CoreRule {
    ghost use Rattle.std.specs.Prelude.{◌-◌};
    ghost use Rattle.core_state.specs.declared.view.Role.TheVariants.{Pass};
    ghost use Rattle.core_state.specs.View.{blank_view};
    ghost use Rattle.pass_table.specs.Standing.{IsRuled};

    ghost holds = { IsRuled };

    ghost first = { λ c. blank_view c (Pass 0 (c.passes - 1)) };
}

/// The words of a world, as all its callers share them.
pub(crate) type Words = Shared<(), View, Config, CoreRule>;

/// What ties a caller to its view.
pub(crate) type Seat = atomic_table::Seat<(), View>;
