//! The kinds of step that have a typed call, a file for each group: what a kind asks and does, and its call, numbered as in
//! docs/steps.md. Each typed call is exactly one step.
mod batches;
mod bodies;
mod lists;
mod locks;
mod moves;
mod nodes;
mod removal;
mod walks;

pub use batches::{step_17, step_18, step_19, step_23, step_24, step_25, step_26, step_27};
pub use bodies::{step_12, step_13, step_14, step_15, step_16};
pub use lists::{step_9, step_10, step_11};
pub(crate) use locks::Look;
pub use locks::{step_4, step_5, step_6, step_7, step_8};
pub use moves::{step_34, step_35, step_36, step_37, step_38};
pub use nodes::{step_20, step_21, step_22};
pub use removal::{step_39, step_40, step_41};
pub use walks::{step_28, step_29, step_30, step_31, step_32, step_33};

/// A kind of step, for proofs alone.
pub(crate) trait Kind {
    ghost use Rattle.core_state.specs.Core.{Core};
    ghost use Rattle.core_state.specs.Event.{Event};
    ghost use Rattle.core_state.specs.Kind as core;

    /// What it asks of the view of the pass, the word and the operands.
    ghost asks: { core.Asking };

    /// Its operation, the entry that it makes, and the view that it leaves.
    ghost kind: { core.Kind };

    /// Each of its steps is an event of the core.
    ghost event: { (before after : Core) → core.Steps asks kind before after → Event before after };
}

/// A kind of step that leaves the locks of the pass as they are, and whether it walks.
pub(crate) trait StillKind: Kind {
    ghost use Rattle.pass_table.specs.Holding.{IsStill};

    ghost still: { IsStill Self.kind };
}

/// A kind of step that leaves the locks of the pass as they are, and with which the pass begins or ends to walk.
pub(crate) trait TurningKind: Kind {
    ghost use Rattle.std.specs.Prelude.{Bool};
    ghost use Rattle.pass_table.specs.Holding.{TurnsWalk};

    /// Whether the pass walks afterwards.
    ghost walks: { Bool };

    ghost turns: { TurnsWalk Self.kind walks };
}
