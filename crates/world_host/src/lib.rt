//! Commands of a script on a shared world, made by its one pass.
//!
//! Nobody else acts in such a world. What the calls of a world tell of points of a call is then told of the scene before it, so each
//! command is answered word for word as the plain player answers it.
//!
//! It stands on the calls of a shared world, and on the meaning of scripts. The layer above uses that each command does its turn.
#![tactic(auto)]

mod adding;
mod batches;
mod batches_alone;
mod bodies;
mod bodies_alone;
mod host;
mod opening;
mod query_alone;
mod reading;
mod serial_world;
mod turns;
mod users_alone;

pub use host::WorldHost;
pub use serial_world::SerialWorld;
