//! Passes over one table: the callers of a shared world, and the single steps by which they act.
//!
//! A world has one table of words, and each of its callers a pass. The table has one rule: its words are those that a
//! log leaves, and with the views of all passes this log is a core that meets the invariants. So the rule says what the
//! core's laws say, of running threads. Each typed call is one event of the core, of the kind whose number it has, and
//! its contract says what the pass then knows: what it knew, what others stored since, and its own store.
//!
//! It stands on the core, on the proofs that the kinds of step keep the invariants, and on the kit's `atomic_table`,
//! whose steps are proved once for all rules. The layers above act on a world through these calls alone; what they use
//! is that a step finds the word as the log then has it, and that what a pass has for itself was stored by no other.
#![tactic(auto)]

mod calls;
mod driving;
mod kind;
mod label;
pub mod laws;
mod lock_set;
mod locks;
mod looking;
mod open_fault;
mod opening_words;
mod operation;
mod pass;
mod pass_list;
mod pass_step;
mod rule;
mod seats;
mod table_step;
mod take_answer;
mod take_op;
mod take_turns;
mod turn;
mod world;

pub use driving::drive;
pub use kind::{
    step_4, step_5, step_6, step_7, step_8, step_9, step_10, step_11, step_12, step_13, step_14,
    step_15, step_16, step_17, step_18, step_19, step_20, step_21, step_22, step_23, step_24,
    step_25, step_26, step_27, step_28, step_29, step_30, step_31, step_32, step_33, step_34,
    step_35, step_36, step_37, step_38, step_39, step_40, step_41,
};
pub use label::Label;
pub use locks::{release, take_read, take_write, try_take};
pub use open_fault::OpenFault;
pub use operation::Operation;
pub use pass::Pass;
pub use pass_list::{PassList, open_world};
pub use take_answer::Take;
pub use take_op::TakeOp;
pub use turn::Turn;
pub use world::World;

/// A world may be shared between threads.
fn is_shared<T: Sync>() {}

/// A pass may go to another thread.
fn is_sent<T: Send>() {}

/// Both are shown here, so that no crate above has to.
fn worlds_and_passes_cross_threads() {
    is_shared::<World>();
    is_sent::<World>();
    is_sent::<Pass>();
}
