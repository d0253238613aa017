ghost use Rattle.std.specs.Prelude.{◌≡◌};

use fixed_box::FixBox;
use std::marker::Model;

/// Indexes of bodies, in order.
#[derive(Debug, Drop)]
pub struct IndexList {
    list: Vec<u32>,
}

impl Model for IndexList {
    ghost use Rattle.std.specs.Prelude.{List, ℕ};

    ghost Value = { List ℕ };

    ghost view = { λ l. l.list.items };
}

impl IndexList {
    /// The list of these indexes. It takes no memory.
    pub fn new(items: Vec<u32>) -> Self
        ensures { result ≡ items.items }
    {
        IndexList { list: items }
    }

    /// The indexes, in order.
    pub fn items(&self) -> &[u32]
        ensures { result.now ≡ self.now }
    {
        self.list.as_slice()
    }
}

/// One change of the scene.
#[derive(Debug, Drop)]
pub enum Entry {
    /// A body is created at this index, out of the broad phase.
    Create {
        index: u32,
        layer: u32,
        bounds: FixBox,
        user: u32,
    },
    /// The body leaves the scene, and its index is free.
    Destroy {
        index: u32,
    },
    /// A batch takes the body, to add it.
    Mark {
        index: u32,
    },
    /// The batch lets the body go.
    Unmark {
        index: u32,
    },
    /// Bodies that were held come into the broad phase, all at once.
    Join {
        layer: u32,
        indexes: IndexList,
    },
    /// The body leaves the broad phase.
    Remove {
        index: u32,
    },
    /// The body gets other bounds.
    Move {
        index: u32,
        bounds: FixBox,
    },
    /// The body gets another user number.
    SetUser {
        index: u32,
        user: u32,
    },
}

/// An entry, and the number of the pass that made it.
#[derive(Debug, Drop)]
pub struct Made {
    pub pass: u32,
    pub entry: Entry,
}
