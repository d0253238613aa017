//! The kinds of calls, and the causes for which they are refused.
ghost use Rattle.std.specs.Prelude.{◌<◌};

use crate::answers::Refusal;

/// A kind of call.
#[derive(Clone, Copy, PartialEq, Eq)]
pub(crate) enum Kind {
    Create,
    Destroy,
    Prepare,
    Finalize,
    Abort,
    Move,
    Remove,
    SetUser,
    View,
    QueryBox,
    QueryPoint,
    QuerySegment,
}

/// How many kinds there are.
pub(crate) const KINDS: usize = 12;

impl Kind {
    pub(crate) const ALL: [Kind; KINDS] = [
        Kind::Create,
        Kind::Destroy,
        Kind::Prepare,
        Kind::Finalize,
        Kind::Abort,
        Kind::Move,
        Kind::Remove,
        Kind::SetUser,
        Kind::View,
        Kind::QueryBox,
        Kind::QueryPoint,
        Kind::QuerySegment,
    ];

    /// The kind of a number below 100, by how often it is to come.
    pub(crate) fn drawn(number: u32) -> Kind {
        match number {
            0..=15 => Kind::Create,
            16..=27 => Kind::Destroy,
            28..=43 => Kind::Prepare,
            44..=45 => Kind::Finalize,
            46..=54 => Kind::Abort,
            55..=64 => Kind::Move,
            65..=71 => Kind::Remove,
            72..=78 => Kind::SetUser,
            79..=86 => Kind::View,
            87..=91 => Kind::QueryBox,
            92..=95 => Kind::QueryPoint,
            _ => Kind::QuerySegment,
        }
    }

    /// Whether it ends a batch that is prepared.
    pub(crate) fn ends_batch(self) -> bool {
        matches!(self, Kind::Finalize | Kind::Abort)
    }

    /// The kind that comes in its place where no batch is prepared.
    pub(crate) fn with_no_batch(self) -> Kind {
        if self.ends_batch() {
            Kind::Prepare
        } else {
            self
        }
    }

    pub(crate) fn name(self) -> &'static str {
        match self {
            Kind::Create => "create",
            Kind::Destroy => "destroy",
            Kind::Prepare => "prepare",
            Kind::Finalize => "finalize",
            Kind::Abort => "abort",
            Kind::Move => "move",
            Kind::Remove => "remove",
            Kind::SetUser => "set_user",
            Kind::View => "view",
            Kind::QueryBox => "query by box",
            Kind::QueryPoint => "query by point",
            Kind::QuerySegment => "query by segment",
        }
    }

    /// Its place among all kinds.
    pub(crate) fn place(self) -> usize
        ensures { result < 12 }
    {
        match self {
            Kind::Create => 0,
            Kind::Destroy => 1,
            Kind::Prepare => 2,
            Kind::Finalize => 3,
            Kind::Abort => 4,
            Kind::Move => 5,
            Kind::Remove => 6,
            Kind::SetUser => 7,
            Kind::View => 8,
            Kind::QueryBox => 9,
            Kind::QueryPoint => 10,
            Kind::QuerySegment => 11,
        }
    }
}

/// How many causes of refusals there are.
pub(crate) const CAUSES: usize = 11;

/// The names of the causes.
pub(crate) const CAUSE_NAMES: [&str; CAUSES] = [
    "memory",
    "full",
    "gone",
    "in use",
    "not in",
    "held",
    "already in",
    "wrong layer",
    "empty",
    "no slot",
    "no nodes",
];

/// The place of a refusal's cause among the names.
pub(crate) fn cause_place(refusal: Refusal) -> usize
    ensures { result < 11 }
{
    match refusal {
        Refusal::Memory => 0,
        Refusal::Full { .. } => 1,
        Refusal::Gone { .. } => 2,
        Refusal::InUse { .. } => 3,
        Refusal::NotIn { .. } => 4,
        Refusal::Held { .. } => 5,
        Refusal::AlreadyIn { .. } => 6,
        Refusal::WrongLayer { .. } => 7,
        Refusal::Empty => 8,
        Refusal::NoSlot { .. } => 9,
        Refusal::NoNodes { .. } => 10,
    }
}
