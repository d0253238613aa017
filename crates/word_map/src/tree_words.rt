//! What the words of slots, of nodes and of places in trees say.
ghost use Rattle.std.specs.Prelude.{◌≡◌, ◌↔◌, ◌+◌, ◌*◌, ◌^◌, ◌<◌, ◌≤◌, true};
ghost use Rattle.word_map.specs.Words.{IsSlotWord, IsLocationWord, IsBoundWord, word_of_slot, word_of_child, word_of_location, word_of_bound};

/// A slot word from here on names the root of a tree; those below, but 0, name a pass.
const TREES: u64 = 1024;

/// The word of a least side of the bound of a child that is not there: it is greater than that of any coordinate.
const NO_LEAST_SIDE: u64 = 33_554_432;

/// What the word of an attach slot says.
#[derive(Clone, Copy, Debug, PartialEq, Eq)]
pub enum SlotWord {
    /// No batch has the slot.
    Empty,
    /// A pass, whose number is below 1,023, prepares a batch for it.
    Reserved { pass: u32 },
    /// A batch is attached, with this root.
    Tree { root: u32 },
}

impl SlotWord {
    /// What a word says of its slot.
    #[inline(always)]
    pub fn from_word(word: u64) -> SlotWord
        requires in_range { word < 1024 + 2 ^ 32 }
        ensures sound { IsSlotWord result }
        ensures value { word_of_slot result ≡ word }
    {
        if word == 0 {
            SlotWord::Empty
        } else if word < TREES {
            SlotWord::Reserved {
                pass: (word - 1) as u32,
            }
        } else {
            SlotWord::Tree {
                root: (word - TREES) as u32,
            }
        }
    }

    /// Whether a word names a tree, so that the batch is attached. A body that was marked for the slot is held before, and
    /// in the broad phase from then on.
    #[inline(always)]
    pub fn names_tree(word: u64) -> bool
        ensures { (result ≡ true) ↔ (1024 ≤ word) }
    {
        TREES <= word
    }

    /// The word that says it.
    #[inline(always)]
    pub fn to_word(self) -> u64
        ensures { result ≡ word_of_slot self }
    {
        match self {
            SlotWord::Empty => 0,
            SlotWord::Reserved { pass } => 1 + u64::from(pass),
            SlotWord::Tree { root } => TREES + u64::from(root),
        }
    }
}

/// What the word of a child of a node says.
#[derive(Clone, Copy, Debug, PartialEq, Eq)]
pub enum ChildWord {
    /// There is no child.
    Empty,
    /// The child is the body at this index.
    Body { index: u32 },
    /// The child is this node.
    Node { node: u32 },
}

impl ChildWord {
    /// The child that a word names.
    #[inline(always)]
    pub fn from_word(word: u64) -> ChildWord
        requires in_range { word ≤ 2 ^ 33 }
        ensures { word_of_child result ≡ word }
    {
        if word == 0 {
            ChildWord::Empty
        } else if word % 2 == 1 {
            ChildWord::Body {
                index: (word / 2) as u32,
            }
        } else {
            ChildWord::Node {
                node: (word / 2 - 1) as u32,
            }
        }
    }

    /// The word that names it.
    #[inline(always)]
    pub fn to_word(self) -> u64
        ensures { result ≡ word_of_child self }
    {
        match self {
            ChildWord::Empty => 0,
            ChildWord::Body { index } => 1 + 2 * u64::from(index),
            ChildWord::Node { node } => 2 + 2 * u64::from(node),
        }
    }
}

/// What a word says that names a place in a tree: of a body, or of a node in the node above it.
#[derive(Clone, Copy, Debug, PartialEq, Eq)]
pub enum LocationWord {
    /// It has none.
    Nowhere,
    /// It is this child, 0 to 3, of this node.
    At { node: u32, child: u32 },
}

impl LocationWord {
    /// The place that a word names.
    #[inline(always)]
    pub fn from_word(word: u64) -> LocationWord
        requires in_range { word ≤ 2 ^ 34 }
        ensures sound { IsLocationWord result }
        ensures value { word_of_location result ≡ word }
    {
        if word == 0 {
            LocationWord::Nowhere
        } else {
            LocationWord::At {
                node: ((word - 1) / 4) as u32,
                child: ((word - 1) % 4) as u32,
            }
        }
    }

    /// The word that names it.
    #[inline(always)]
    pub fn to_word(self) -> u64
        ensures { result ≡ word_of_location self }
    {
        match self {
            LocationWord::Nowhere => 0,
            LocationWord::At { node, child } => 1 + (4 * u64::from(node) + u64::from(child)),
        }
    }
}

/// What a word of the bound of a child says. Sides 0 to 2 are the least x, y, z, sides 3 to 5 the greatest.
#[derive(Clone, Copy, Debug, PartialEq, Eq)]
pub enum BoundWord {
    /// There is no child: no box reaches the side.
    Empty,
    /// The side is the coordinate with this word, 1 to 16,777,216.
    At { coordinate: u32 },
}

impl BoundWord {
    /// What a word says of a side.
    #[inline(always)]
    pub fn from_word(side: u32, word: u64) -> BoundWord
        requires in_range { word < 2 ^ 32 }
        ensures sound { IsBoundWord side result }
        ensures value { word_of_bound side result ≡ word }
    {
        if word == BoundWord::Empty.to_word(side) {
            BoundWord::Empty
        } else {
            BoundWord::At {
                coordinate: word as u32,
            }
        }
    }

    /// The word that says it of a side.
    #[inline(always)]
    pub fn to_word(self, side: u32) -> u64
        ensures { result ≡ word_of_bound side self }
    {
        match self {
            BoundWord::Empty if side < 3 => NO_LEAST_SIDE,
            BoundWord::Empty => 0,
            BoundWord::At { coordinate } => u64::from(coordinate),
        }
    }
}
