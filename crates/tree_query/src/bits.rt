//! Bits of words, 64 in each.
ghost use Rattle.std.specs.Prelude.{◌≡◌, ◌≢◌, ℕ, ◌+◌, ◌*◌, ◌/◌, ◌%◌, ◌^◌, ◌<◌, ◌≤◌, ◌==◌, true, false, if◌then◌else◌, length, slice_index, IfSome, IfNone};
ghost use Rattle.tree_query.specs.Indexes.{has_bit, IsFirst};

/// The first number of a set from one on, where it stands in the same word.
#[inline(always)]
pub(crate) fn first_beside(words: &[u64], at: u32) -> Option<u32>
    requires few { length words.now ≤ 2 ^ 17 }
    requires below { at < 64 * length words.now }
    ensures some { IfSome result (IsFirst (has_bit words.now) at) }
    ensures beside { IfSome result (λ first. first / 64 ≡ at / 64) }
    ensures none { IfNone result ((other : ℕ) → at ≤ other → other / 64 ≡ at / 64 → has_bit words.now other ≡ false) }
    ensures zero { IfNone result (slice_index words.now (at / 64) / 2 ^ (at % 64) ≡ 0) }
{
    let rest = words[(at / 64) as usize] >> (at % 64);
    if rest == 0 {
        return None;
    }
    Some(at + rest.trailing_zeros())
}

/// Puts a number into a set.
#[inline(always)]
pub(crate) fn put_in(words: &mut Vec<u64>, number: u32)
    requires below { number < 64 * length words.old.items }
    ensures len { length words.new.items ≡ length words.old.items }
    ensures has { (other : ℕ) → has_bit words.new.items other ≡ if number == other then true else has_bit words.old.items other }
    ensures some { 0 < slice_index words.new.items (number / 64) }
    ensures others { (word : ℕ) → word ≢ number / 64 → slice_index words.new.items word ≡ slice_index words.old.items word }
{
    words[(number / 64) as usize] |= 1u64 << (number % 64);
}

/// Takes a number out of a set.
#[inline(always)]
pub(crate) fn take_out(words: &mut Vec<u64>, number: u32)
    requires below { number < 64 * length words.old.items }
    ensures len { length words.new.items ≡ length words.old.items }
    ensures has { (other : ℕ) → has_bit words.new.items other ≡ if number == other then false else has_bit words.old.items other }
    ensures others { (word : ℕ) → word ≢ number / 64 → slice_index words.new.items word ≡ slice_index words.old.items word }
    ensures zero { (word : ℕ) → slice_index words.old.items word ≡ 0 → slice_index words.new.items word ≡ 0 }
{
    words[(number / 64) as usize] &= !(1u64 << (number % 64));
}
