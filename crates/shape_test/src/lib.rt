//! Whether a shape touches a box, and where a segment enters one.
//!
//! It stands on `fixed_box`, which defines both questions; walks over trees of boxes stand on it. The layer
//! above uses that `touch` answers exactly that definition, for each shape and each box, and that it computes
//! `is_touched`, the same as a test. `laws` has what follows for all shapes and segments.
#![tactic(auto)]

mod axis;
mod fraction;
mod gap;
pub mod laws;
mod run;
mod segment_entry;
mod shape_touch;
mod span;
mod spans;

pub use fraction::Frac;
pub use segment_entry::entry;
pub use shape_touch::touch;
