//! Calls on a finder.
ghost use Rattle.std.specs.Prelude.{◌≡◌, ℕ, ◌+◌, ◌*◌, ◌/◌, ◌^◌, ◌<◌, ◌≤◌, ◌==◌, true, false, if◌then◌else◌, nat_lt, min, length, slice_index, IfOk, IfSome, IfNone};
ghost use Rattle.tree_query.specs.Indexes.{has_bit, IsFirst, HasNone};
ghost use Rattle.tree_query.specs.Finding.{has_index, room_of, seq_of, id_in, ids_from, ids_of};

use crate::bit_set::BitSet;
use crate::bits::{first_beside, put_in, take_out};
use crate::finder::Finder;
use crate::found_ids::FoundIds;
use body_ident::BodyId;
use std::alloc::{AllocError, Global};

impl Finder {
    /// A finder that holds nothing, for a world of so many bodies or fewer. Indexes of ids are below 8,388,608, so it has
    /// room for no more than these. It fails only for want of memory.
    pub fn new(alloc: Global, bodies: u32) -> Result<Finder, AllocError>
        ensures room { IfOk result (λ finder. room_of finder ≡ min bodies (2 ^ 23)) }
        ensures none { IfOk result (λ finder. (index : ℕ) → has_index finder index ≡ false) }
        ensures loads { IfOk result (λ finder. finder.loads ≡ 0) }
    {
        let room = if bodies < BodyId::INDEXES {
            bodies as usize
        } else {
            BodyId::INDEXES as usize
        };
        let words = (room + 63) / 64;
        Ok(Finder {
            words: vec![in alloc; 0; words]?,
            touched: BitSet::new(alloc, (words + 63) / 64)?,
            sequences: vec![in alloc; 0; room]?,
            loads: 0,
        })
    }

    /// The ids that the last query found: ascending by index, each index once.
    pub fn ids(&self) -> FoundIds<'_>
        ensures { ids_from result.finder.now result.next ≡ ids_of self.now }
    {
        FoundIds {
            finder: self,
            next: 0,
        }
    }

    /// How many loads of words the last walk took; 0 where there was none.
    pub fn loads(&self) -> u64
        ensures { result ≡ self.now.loads }
    {
        self.loads
    }

    /// The index, with this sequence number, is found.
    #[inline(always)]
    pub(crate) fn put(&mut self, index: u32, seq: u8)
        requires { index < room_of self.old }
        ensures has { (other : ℕ) → has_index self.new other ≡ if index == other then true else has_index self.old other }
        ensures seq { (other : ℕ) → seq_of self.new other ≡ if index == other then seq else seq_of self.old other }
        ensures room { room_of self.new ≡ room_of self.old }
        ensures loads { self.new.loads ≡ self.old.loads }
    {
        put_in(&mut self.words, index);
        self.touched.insert(index / 64);
        self.sequences[index as usize] = seq;
    }

    /// The index is not found any more.
    #[inline(always)]
    pub(crate) fn remove(&mut self, index: u32)
        requires { index < room_of self.old }
        ensures has { (other : ℕ) → has_index self.new other ≡ if index == other then false else has_index self.old other }
        ensures seq { (other : ℕ) → seq_of self.new other ≡ seq_of self.old other }
        ensures room { room_of self.new ≡ room_of self.old }
        ensures loads { self.new.loads ≡ self.old.loads }
    {
        take_out(&mut self.words, index);
        if self.words[(index / 64) as usize] == 0 {
            self.touched.remove(index / 64);
        }
    }

    /// The first index that was found, from one on.
    #[inline(always)]
    pub(crate) fn first_from(&self, at: u32) -> Option<u32>
        ensures some { IfSome result (IsFirst (has_index self.now) at) }
        ensures below { IfSome result (λ index. index < room_of self.now) }
        ensures none { IfNone result (HasNone (has_index self.now) at) }
    {
        let word = at / 64;
        if word as usize >= self.words.len() {
            return None;
        }
        if let Some(first) = first_beside(&self.words, at) {
            return Some(first);
        }
        let next = self.touched.first_from(word + 1)?;
        first_beside(&self.words, next * 64)
    }

    /// The id of an index that was found.
    #[inline(always)]
    pub(crate) fn id(&self, index: u32) -> BodyId
        requires { index < room_of self.now }
        ensures { result ≡ id_in self.now index }
    {
        BodyId::new(index, self.sequences[index as usize])
    }

    /// Nothing is found, and no loads were made. It looks only at words that hold an index.
    pub(crate) fn clear(&mut self)
        ensures none { (index : ℕ) → has_index self.new index ≡ false }
        ensures room { room_of self.new ≡ room_of self.old }
        ensures loads { self.new.loads ≡ 0 }
    {
        clear_marked(&mut self.words, &self.touched);
        self.touched.clear();
        self.loads = 0;
    }
}

/// Clears the words that are marked, which are just those that are not 0.
fn clear_marked(words: &mut Vec<u64>, marked: &BitSet)
    requires marks { (word : ℕ) → has_bit marked.now.words.items word ≡ nat_lt 0 (slice_index words.old.items word) }
    ensures none { (word : ℕ) → slice_index words.new.items word ≡ 0 }
    ensures len { length words.new.items ≡ length words.old.items }
{
    let mut next = 0;
    while let Some(word) = marked.first_from(next) {
        words[word as usize] = 0;
        next = word + 1;
    }
}
