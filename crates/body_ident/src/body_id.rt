ghost use Rattle.std.specs.Prelude.{◌≡◌, ◌<◌, ◌^◌, ◌↔◌, IsNone, IfSome};
ghost use Rattle.std.specs.Int.{IsBitSet};
ghost use Rattle.body_ident.specs.Word.{IsId, word_of};

use std::marker::Model;

/// The name of a body: a 23-bit index and an 8-bit sequence number.
///
/// The sequence number tells a stale id from the id of the body that now stands at its index. It counts the
/// creations at that index modulo 256, so it is fooled only after 256 further creations there. One bit of
/// the word is kept for the broad phase and is never set in an id.
#[derive(Clone, Copy, Debug, PartialEq, Eq)]
pub struct BodyId {
    raw: u32,
}

impl Model for BodyId {
    ghost use Rattle.std.specs.Prelude.{◌<◌, ◌+◌, ◌*◌, ◌/◌, ◌%◌, ◌^◌};
    ghost use Rattle.body_ident.specs.Id.{Id};

    ghost Value = { Id };

    ghost view = { λ i. record { index = i.raw % 2 ^ 24; seq = i.raw / 2 ^ 24 } };

    ghost invariant = { λ i. i.raw % 2 ^ 24 < 2 ^ 23 };

    ghost inverse = { λ d. record { raw = 2 ^ 24 * d.seq + d.index } };
}

impl BodyId {
    /// One more than the greatest index.
    pub const INDEXES: u32 = 1 << 23;

    /// The id with this index and this sequence number.
    pub fn new(index: u32, seq: u8) -> BodyId
        requires { index < 2 ^ 23 }
        ensures index { result.index ≡ index }
        ensures seq { result.seq ≡ seq }
    {
        BodyId {
            raw: u32::from(seq) * (1 << 24) + index,
        }
    }

    /// The index of the body that it names, below 8,388,608.
    pub fn index(self) -> u32
        ensures value { result ≡ self.index }
        ensures range { result < 2 ^ 23 }
    {
        self.raw % (1 << 24)
    }

    /// The sequence number: how many bodies were created at the index up to this one, modulo 256.
    pub fn seq(self) -> u8
        ensures { result ≡ self.seq }
    {
        (self.raw / (1 << 24)) as u8
    }

    /// The word of the id: the index in bits 0 to 22, bit 23 zero, and the sequence number in bits 24 to 31.
    pub fn raw(self) -> u32
        ensures value { result ≡ word_of self }
        ensures range { IsId self }
    {
        self.raw
    }

    /// The id of a word, and `None` exactly where bit 23 of the word is set.
    #[tactic(auto, using(crate::proofs::WordLemmas::index_where_clear))]
    pub fn of_raw(raw: u32) -> Option<BodyId>
        ensures none { IsNone result ↔ IsBitSet raw 23 }
        ensures value { IfSome result (λ id. word_of id ≡ raw) }
        ensures range { IfSome result IsId }
    {
        if raw & (1 << 23) == 0 {
            Some(BodyId { raw })
        } else {
            None
        }
    }
}
