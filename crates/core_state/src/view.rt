use crate::item::{Item, Load, Store};
use std::collections::LinkedList;
use word_map::Config;

/// Whose view it is.
#[derive(Clone, Copy, Debug, PartialEq, Eq)]
pub enum Role {
    /// That of the pass with this number, which may still give the numbers after it, so many, to passes that it opens.
    Pass { number: u32, further: u32 },
    /// A copy of what a pass knows, on its way to another pass that meets it.
    Visitor,
    /// None any more: what it knew went to a pass.
    Spent,
}

/// How a lock is held.
#[derive(Clone, Copy, Debug, PartialEq, Eq)]
pub enum Mode {
    Read,
    Write,
}

/// A step on a lock.
#[derive(Clone, Copy, Debug, PartialEq, Eq)]
pub enum LockStep {
    /// The lock with this number was taken.
    Taken { lock: u32, mode: Mode },
    /// The lock with this number was let go.
    Released { lock: u32 },
}

/// The current or last walk of a pass through the trees.
#[derive(Drop)]
pub struct Walk {
    /// Whether it has begun and has not ended.
    pub is_on: bool,
    /// How long the history was when it began.
    pub from: u64,
    /// What it loaded of slots, main roots, children and bounds, in order.
    pub loads: LinkedList<Load>,
    /// The bound that it has read in part, as it stood at the first load of it: six words, or none.
    pub bound: LinkedList<u64>,
}

/// What a pass is in the middle of, under the locks that it holds.
#[derive(Drop)]
pub enum Task {
    /// Nothing is half done.
    Nothing,
    /// The index was taken off the list of free ones, and its body is not created yet.
    Creating { index: u32 },
    /// The index was put on the list of free ones, and its body is not destroyed yet.
    Destroying { index: u32 },
    /// So many nodes were taken off the pool of free batch nodes, and so many put on it, since its count was stored.
    Pooling { taken: u32, given: u32 },
    /// The body is to have the box of these six words.
    Moving { index: u32, target: LinkedList<u64> },
    /// The body is out of the broad phase, and its places in trees are not all cleared.
    Removing { index: u32 },
    /// The body is to stand at its place in the new tree of its layer.
    Placing { index: u32 },
}

/// How far a call under a lock has come.
#[derive(Drop)]
pub struct Call {
    pub task: Task,
    /// What it loaded since its task began, in order.
    pub loads: LinkedList<Load>,
    /// What it stored since its task began, in order.
    pub stores: LinkedList<Store>,
}

/// A body that a batch holds.
#[derive(Drop)]
pub struct Marked {
    pub index: u32,
    /// The six words of its box when it was marked.
    pub bounds: LinkedList<u64>,
    /// Where it stands in the nodes of the batch, as a location word; 0 until that is planned.
    pub place: u64,
    /// Whether its word `LocA` says so yet.
    pub is_placed: bool,
}

/// A batch that a pass prepares: a reserved slot, its nodes and the bodies that it holds.
#[derive(Drop)]
pub struct Batch {
    pub layer: u32,
    pub slot: u32,
    /// Its nodes, all of them batch nodes.
    pub nodes: LinkedList<u32>,
    pub marked: LinkedList<Marked>,
}

/// A tree in a slot that an update is to merge into the main tree.
#[derive(Clone, Copy, Debug, PartialEq, Eq)]
pub struct Merged {
    pub layer: u32,
    pub slot: u32,
    pub root: u32,
}

/// A body that an update noted, as it found it.
#[derive(Drop)]
pub struct Noted {
    pub index: u32,
    /// Which creation at its index it was, from 1 on.
    pub generation: u64,
    pub state: u64,
    pub phase: u64,
    pub layer: u32,
    /// The six words of its box.
    pub bounds: LinkedList<u64>,
    /// Its word `LocA`.
    pub location: u64,
    /// Where it stands in the new tree of its layer, as a location word; 0 until that is planned.
    pub place: u64,
}

/// A node of a new tree, with the layer of the tree.
#[derive(Clone, Copy, Debug, PartialEq, Eq)]
pub struct NewNode {
    pub layer: u32,
    pub node: u32,
}

/// A node that waits to be walked or to be given back, and its level: that of a root is 1.
#[derive(Clone, Copy, Debug, PartialEq, Eq)]
pub struct Waiting {
    pub node: u32,
    pub level: u32,
}

/// The update that a pass has under way.
#[derive(Drop)]
pub struct Rebuild {
    /// How long the history was when it began.
    pub from: u64,
    /// The arena that the main trees are in, once it was loaded.
    pub arena: Option<u64>,
    /// How many slot words were loaded.
    pub slots_read: u32,
    /// The trees that were found in slots.
    pub merged: LinkedList<Merged>,
    /// How many indexes were looked at.
    pub passed: u32,
    /// The bodies that were found in the main trees and in merged slots.
    pub noted: LinkedList<Noted>,
    /// The nodes of the other arena that stand in no published tree.
    pub nodes: LinkedList<u32>,
    /// Those of them in which the new trees are made that are not published yet.
    pub made: LinkedList<NewNode>,
    /// Whether the new trees stand in those nodes.
    pub is_planned: bool,
    /// The new main word of each layer.
    pub roots: LinkedList<u64>,
    /// The bodies that were placed in the new trees, and those of them that were found gone.
    pub placed: LinkedList<u32>,
    pub given_up: LinkedList<u32>,
    /// The old main words of the layers that were exchanged, from layer 0 on.
    pub swapped: LinkedList<u64>,
    /// How many of the merged slots were cleared.
    pub cleared: u32,
    /// The bodies whose place in the new tree became their only one.
    pub promoted: LinkedList<u32>,
    /// The reader words that were loaded since, in order.
    pub readers: LinkedList<Load>,
    /// Whether no reader is left in the old trees.
    pub is_reclaimed: bool,
    /// The tops of what is left of merged trees to give back, the next one first.
    pub returning: LinkedList<Waiting>,
    /// Whether the word `Arena` names the other arena by now.
    pub is_switched: bool,
}

/// What two passes knew when they met.
#[derive(Drop)]
pub struct Joined {
    pub own: LinkedList<Item>,
    pub other: LinkedList<Item>,
}

/// What a pass knows of its world. No value of it is made: the laws of the core speak of it.
#[derive(Drop)]
pub struct View {
    pub config: Config,
    pub role: Role,
    /// The log as it was at its last step.
    pub known: LinkedList<Item>,
    /// While it meets another pass: what the two knew.
    pub joined: Option<Joined>,
    /// The locks that it took and let go, in order.
    pub locks: LinkedList<LockStep>,
    pub walk: Walk,
    pub call: Call,
    /// The batches that it prepares.
    pub batches: LinkedList<Batch>,
    /// The batch nodes that it owns for no batch any more, and is to give back.
    pub loose: LinkedList<u32>,
    /// What it stored in nodes of its own since they are its own.
    pub written: LinkedList<Store>,
    pub rebuild: Option<Rebuild>,
}
