//! The lists of a world.

/// A list of free places.
#[derive(Clone, Copy, Debug, PartialEq, Eq)]
pub enum ListName {
    /// The free indexes of bodies.
    Bodies,
    /// The free batch nodes.
    Nodes,
}

/// There is nothing on the list: the head that was loaded under its lock names nothing.
#[derive(Clone, Copy, Debug, PartialEq, Eq)]
pub struct Empty {
    pub head: u64,
}
