//! What queries find.
ghost use Rattle.std.specs.Prelude.{◌≡◌, ℕ, ◌+◌, ◌*◌, ◌/◌, ◌^◌, ◌<◌, ◌≤◌, true, nat_lt, length, slice_index};
ghost use Rattle.tree_query.specs.Indexes.{has_bit};

use crate::bit_set::BitSet;

/// What a query finds: indexes of bodies, each with a sequence number, and the number of loads that it took.
///
/// All memory is taken when it is made, so one finder serves query after query. What a query leaves is found by the words
/// that hold it, not by a look at all of them, and so it is cleared for the next one.
#[derive(Drop)]
pub struct Finder {
    /// A bit for each index.
    pub(crate) words: Vec<u64>,
    /// The words that are not 0.
    pub(crate) touched: BitSet,
    /// The sequence number of each index that was found.
    pub(crate) sequences: Vec<u8>,
    pub(crate) loads: u64,
    ghost few: { length sequences.items ≤ 2 ^ 23 },
    ghost sized: { length words.items ≡ (length sequences.items + 63) / 64 },
    ghost tall: { length words.items ≤ 64 * length touched.words.items },
    ghost marks: { (word : ℕ) → has_bit touched.words.items word ≡ nat_lt 0 (slice_index words.items word) },
    ghost below: { (index : ℕ) → has_bit words.items index ≡ true → index < length sequences.items },
}
