//! What is kept of a batch until it is attached or given up.
ghost use Rattle.std.specs.Prelude.{◌≡◌, ◌<◌, ◌≤◌, ℕ, length, slice_index_or};
ghost use Rattle.word_map.specs.Names.{stripe_of};
ghost use Rattle.batch_add.specs.stages.Keeping.{index_at, node_of};

use pass_table::World;

/// A batch: its slot, the bodies that are marked for it, and its nodes.
#[derive(Drop)]
pub(crate) struct KeptBatch {
    pub(crate) layer: u32,
    pub(crate) slot: u32,
    /// The first ones are the indexes of the bodies that are marked.
    pub(crate) indexes: Vec<u32>,
    /// So many are marked.
    pub(crate) marked: u32,
    /// Whether the marked bodies have their places in the nodes.
    pub(crate) are_placed: bool,
    /// The first ones are the batch's.
    pub(crate) nodes: Vec<u32>,
    /// So many are.
    pub(crate) node_count: u32,
}

impl KeptBatch {
    /// The index of a body.
    pub(crate) fn index(&self, number: u32) -> u32
        requires below { number < length self.now.indexes.items }
        ensures value { result ≡ index_at self.now number }
    {
        self.indexes[number as usize]
    }

    /// The stripe of a body.
    pub(crate) fn stripe(&self, world: &World, number: u32) -> u32
        requires below { number < length self.now.indexes.items }
        ensures value { result ≡ stripe_of world.now.map (index_at self.now number) }
        ensures few { result < world.now.map.stripes }
    {
        world.stripe_of(self.index(number))
    }

    /// A node.
    pub(crate) fn node(&self, number: u32) -> u32
        requires below { number < length self.now.nodes.items }
        ensures value { result ≡ node_of self.now number }
    {
        self.nodes[number as usize]
    }
}
