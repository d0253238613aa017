//! What a body is, looked at under its stripe.
//!
//! Operations on bodies begin alike: they take the stripe of an id's index, and load the state word, which tells whether
//! the id names the live body there. As far as they ask, the phase word comes next, and where it names a slot the layer
//! and the word of that slot. This is done here once, by turns, and in a call for a pass that holds the stripe already.
//! Beside it stand loads of the further words of a body, one step each.
//!
//! It stands on the typed steps. The layers above use that what a look answers is so when it answers, that the pass then
//! guards the body where it is live, and that it holds its stripe alone and has stored nothing else.
#![tactic(auto)]

mod body_found;
mod look_op;
mod look_turns;
mod looking_guarded;
mod word_loads;

pub use body_found::BodyFound;
pub use look_op::{LookDepth, LookOp};
pub use looking_guarded::look_guarded;
pub use word_loads::{load_box, load_layer, load_side, load_user};
