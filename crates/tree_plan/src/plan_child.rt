/// What stands at a child's place of a node.
#[derive(Clone, Copy, Debug, PartialEq, Eq)]
pub enum PlanChild {
    /// No body.
    Nothing,
    /// The body with this index.
    Body(u32),
    /// The node with this number.
    Node(u32),
}
