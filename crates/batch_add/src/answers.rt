//! What the calls on batches answer where they refuse.
ghost use Rattle.std.specs.Prelude.{◌≡◌};

/// The words of the slots of a layer, in the order of the slots: each 0 where it is empty, 1 more than a pass's number while
/// that pass prepares a batch there, and 1024 more than a node where this is the root of a tree.
#[derive(Debug, Drop)]
pub struct SlotWords {
    pub(crate) words: Vec<u64>,
}

impl SlotWords {
    /// These words, which it takes over.
    pub fn new(words: Vec<u64>) -> SlotWords
        ensures { result.words ≡ words }
    {
        SlotWords { words }
    }

    /// The words.
    pub fn items(&self) -> &[u64]
        ensures { result.now ≡ self.now.words.items }
    {
        self.words.as_slice()
    }
}

/// Why no batch was prepared. `at` is the place of the id in the list that is refused, the first one that is; its words were
/// read under the body's lock.
#[derive(Debug, Drop)]
pub enum PrepareRefused {
    /// There was not enough memory. Nothing was done.
    Memory,
    /// The list is empty. Nothing was done.
    Empty,
    /// All slots of the layer hold a tree, or a batch that is prepared: these are their words.
    NoSlot { words: SlotWords },
    /// The tree over the bodies needs so many nodes, and fewer were free.
    NoNodes { need: u32, free: u32 },
    /// The id names no live body: this is the state word of its index.
    Gone { at: u32, state: u64 },
    /// The body is held for a batch: this is the word of that batch's slot. So is one whose id stands in the list twice.
    Held { at: u32, slot: u64 },
    /// The body is in the broad phase: this is its phase word.
    AlreadyIn { at: u32, phase: u64 },
    /// The body is in this other layer.
    WrongLayer { at: u32, layer: u64 },
}
