ghost use Rattle.std.specs.Prelude.{◌≡◌};
ghost use Rattle.reply_text.specs.Reply.{refusal_text};

/// Why a command was refused.
#[derive(Clone, Copy, Debug, PartialEq, Eq)]
pub enum Refusal {
    /// A name stands for no id.
    NoId,
    /// The name already stands for a batch that was prepared.
    Batch,
    /// The name stands for no batch.
    NoBatch,
    /// Every index is live.
    Full,
    /// The id names no body that is live.
    Gone,
    /// The body is in the broad phase, or a batch holds it.
    InUse,
    /// No bodies were named.
    Empty,
    /// The layer has no free slot.
    NoSlot,
    /// Too few nodes are free.
    NoNodes,
    /// A batch holds the body.
    Held,
    /// The body is in the broad phase already.
    AlreadyIn,
    /// The body is in another layer.
    WrongLayer,
    /// The body is not in the broad phase.
    NotIn,
}

impl Refusal {
    /// Its name in small letters.
    pub fn text(self) -> &'static [u8]
        ensures { result.now ≡ refusal_text self }
    {
        match self {
            Refusal::NoId => b"noid",
            Refusal::Batch => b"batch",
            Refusal::NoBatch => b"nobatch",
            Refusal::Full => b"full",
            Refusal::Gone => b"gone",
            Refusal::InUse => b"inuse",
            Refusal::Empty => b"empty",
            Refusal::NoSlot => b"noslot",
            Refusal::NoNodes => b"nonodes",
            Refusal::Held => b"held",
            Refusal::AlreadyIn => b"alreadyin",
            Refusal::WrongLayer => b"wronglayer",
            Refusal::NotIn => b"notin",
        }
    }
}
