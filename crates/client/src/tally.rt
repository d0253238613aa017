//! What threads did.

/// One thing that a thread did.
#[derive(Clone, Copy)]
pub(crate) enum Deed {
    /// A body was created.
    Created,
    /// A body was seen under its lock, as it was created.
    Read,
    /// A body was destroyed.
    Destroyed,
    /// A batch was attached.
    Attached,
    /// A batch was given up.
    GivenUp,
    /// A call was refused, or a body was not seen as it was created.
    Refused,
}

/// How often a thread did what.
#[derive(Clone, Copy)]
pub(crate) struct Tally {
    pub(crate) created: u32,
    pub(crate) read: u32,
    pub(crate) destroyed: u32,
    pub(crate) attached: u32,
    pub(crate) given_up: u32,
    pub(crate) refused: u32,
}

impl Tally {
    pub(crate) const NOTHING: Tally = Tally {
        created: 0,
        read: 0,
        destroyed: 0,
        attached: 0,
        given_up: 0,
        refused: 0,
    };

    /// One deed more.
    pub(crate) fn count(&mut self, deed: Deed) {
        match deed {
            Deed::Created => self.created = self.created.saturating_add(1),
            Deed::Read => self.read = self.read.saturating_add(1),
            Deed::Destroyed => self.destroyed = self.destroyed.saturating_add(1),
            Deed::Attached => self.attached = self.attached.saturating_add(1),
            Deed::GivenUp => self.given_up = self.given_up.saturating_add(1),
            Deed::Refused => self.refused = self.refused.saturating_add(1),
        }
    }

    /// What two did.
    pub(crate) fn and(self, other: Tally) -> Tally {
        Tally {
            created: self.created.saturating_add(other.created),
            read: self.read.saturating_add(other.read),
            destroyed: self.destroyed.saturating_add(other.destroyed),
            attached: self.attached.saturating_add(other.attached),
            given_up: self.given_up.saturating_add(other.given_up),
            refused: self.refused.saturating_add(other.refused),
        }
    }
}
