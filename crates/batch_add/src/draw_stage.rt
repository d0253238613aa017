//! How far drawing a tree is.

/// How far drawing a tree is. Nodes and children are those of the plan.
#[derive(Clone, Copy)]
pub(crate) enum DrawStage {
    /// The word of a child is stored next.
    Child { node: u32, child: u32 },
    /// A side of its bound is.
    Side { node: u32, child: u32, side: u32 },
    /// The location of the body that stands there is.
    Placing { node: u32, child: u32, index: u32 },
    /// The parent of a node is.
    Parent { node: u32 },
}
