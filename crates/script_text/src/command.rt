use crate::text::{Text, TextList};
use fixed_box::{Coord, FixBox, Segment};

/// What a line of a script asks for. Each coordinate is in 1/1024 metre.
#[derive(Debug, Drop)]
pub enum Command {
    /// Create a body and call it by a name.
    Create {
        name: Text,
        layer: u32,
        bounds: FixBox,
        user: u32,
    },
    /// Destroy a body.
    Destroy {
        name: Text,
    },
    /// Add the bodies of these names to the broad phase.
    Add {
        names: TextList,
    },
    /// Prepare these bodies to be added together, and call the batch by a name.
    Prepare {
        batch: Text,
        layer: u32,
        names: TextList,
    },
    /// Add a batch that was prepared.
    Finalize {
        batch: Text,
    },
    /// Give up a batch that was prepared.
    Abort {
        batch: Text,
    },
    /// Take a body out of the broad phase.
    Remove {
        name: Text,
    },
    /// Move a body.
    Move {
        name: Text,
        bounds: FixBox,
    },
    /// Set the user number of a body.
    User {
        name: Text,
        user: u32,
    },
    /// Ask for all that there is to know of a body.
    Read {
        name: Text,
    },
    /// Ask for the user numbers of these bodies, all at one time.
    Multi {
        names: TextList,
    },
    /// Ask for the bodies that touch a box, in the layers of a mask.
    QueryBox {
        mask: u8,
        bounds: FixBox,
    },
    /// Ask for the bodies that touch a point, in the layers of a mask.
    QueryPoint {
        mask: u8,
        at: [Coord; 3],
    },
    /// Ask for the bodies that touch a segment, in the layers of a mask.
    QueryRay {
        mask: u8,
        segment: Segment,
    },
}
