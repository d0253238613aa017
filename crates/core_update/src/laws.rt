//! What is proved of the kinds of step of an update, as the layers above use it. No call here does anything.
pub mod exchanges;
pub mod new_trees;
pub mod noting;
pub mod placing;
pub mod promotions;
pub mod retiring;
pub mod updates;
