//! Fixed-point boxes and the shapes that queries ask for.
//!
//! It stands on nothing, and everything that speaks of where a body is stands on it. The layer above
//! uses that each call says exactly what it computes: of boxes as closed ranges of whole numbers. When a
//! shape touches a box is defined here, and `laws` has what follows for all of them.
#![tactic(auto)]

mod coord;
mod corner;
mod fix_box;
pub mod laws;
mod segment;
mod shape;

pub use coord::Coord;
pub use fix_box::FixBox;
pub use segment::Segment;
pub use shape::Shape;
