/// The name of a word of a world.
///
/// B is the number of bodies, S of stripes, L of layers, K of attach slots of a layer, N of batch nodes, P of
/// passes. Nodes 0 to N-1 are the batch nodes; the next B+L are those of arena 0, and the B+L after them those of
/// arena 1. A word is a 64-bit number. Where it names an index, a node or a pass, 0 says that there is none.
#[derive(Clone, Copy, Debug, PartialEq, Eq)]
pub enum Name {
    /// Lock i, below S+2: the stripes, then the lock of the list of free indexes, then that of the pool of batch
    /// nodes. Bit p is set while pass p reads under it, and bit 32+p while pass p writes.
    Lock(u32),
    /// The first free body index plus 1.
    SlotHead,
    /// The next free index after index i, plus 1.
    SlotNext(u32),
    /// The sequence number of the last creation at index i, plus 256 while the body is live.
    State(u32),
    /// Whether the body at index i is in the broad phase: 0 out, 1 in, 2 + t as attach slot t of its layer says.
    Phase(u32),
    /// The layer of the body at index i.
    Layer(u32),
    /// The user number of the body at index i.
    User(u32),
    /// Coordinate k of the box of the body at index i: lo x, y, z, hi x, y, z.
    BoxWord(u32, u32),
    /// Where the body at index i stands in a tree: 1 + 4 * node + child.
    LocA(u32),
    /// Where an update has placed the body at index i in a new tree: 1 + 4 * node + child.
    LocB(u32),
    /// Child c of node n: 1 + 2 * index for a body, 2 + 2 * node for a node below.
    Child(u32, u32),
    /// Coordinate k of the bound of child c of node n.
    Bound(u32, u32, u32),
    /// The place of node n in the node above it: 1 + 4 * node + child.
    Parent(u32),
    /// The first free batch node plus 1.
    PoolHead,
    /// The next free batch node after batch node n, plus 1.
    PoolNext(u32),
    /// The number of free batch nodes.
    PoolFree,
    /// The root of the main tree of layer l, plus 1.
    Main(u32),
    /// Attach slot t of layer l: 0 while it is empty, 1 + p while pass p prepares a batch for it, 1,024 + node for the
    /// tree with that root.
    Slot(u32, u32),
    /// The reader count of pass p: odd exactly while the pass walks.
    Reader(u32),
    /// The pass whose update is under way, plus 1.
    Update,
    /// The number of the arena that the main trees are in.
    Arena,
}
