//! Steps on the words of a table whose rule asks nothing.
ghost use Rattle.std.specs.Prelude.{◌≡◌};

use super::work::Work;
use atomic_table::{Play, Seat, Table, TableRule};
use std::alloc::Global;

/// The bit that is put into a word and taken away: that of the first pass of a world, where it writes.
const BIT: u64 = 1 << 32;

/// A rule that asks nothing, of which no step tells anything.
pub(crate) struct Anything;

impl TableRule<(), (), ()> for Anything {
    ghost holds = { λ _ _. Unit {0} };

    ghost first = { λ _. tt };
}

impl Play<(), ()> for Anything {
    ghost then = { λ _ _ _ _. Unit {0} };
}

/// A table of two words.
#[derive(Drop)]
pub(crate) struct Bare {
    table: Table<(), (), (), Anything, Global>,
    seat: Seat<(), ()>,
    ghost two: { table.shared.table_id.words ≡ 2 },
    ghost own: { seat.table_id ≡ table.shared.table_id },
}

impl Bare {
    /// The first word is 0, the second this. `None` is want of memory.
    fn open(alloc: Global, second: u64) -> Option<Bare> {
        let (table, seat) = Table::of_words(alloc, &[0, second], &()).ok()?;
        Some(Bare { table, seat })
    }
}

/// A load of a word that is 0 or has the bit.
#[derive(Drop)]
pub(crate) struct BareLoad {
    bare: Bare,
}

impl BareLoad {
    /// `None` is want of memory.
    pub(crate) fn open(alloc: Global) -> Option<BareLoad> {
        Some(BareLoad {
            bare: Bare::open(alloc, BIT)?,
        })
    }
}

impl Work for BareLoad {
    #[inline(always)]
    fn round(&mut self, lock: u32) -> u64 {
        let bare = &mut self.bare;
        let table = &bare.table;
        table.shared.load::<Anything>(&mut bare.seat, lock as usize)
    }
}

/// A store of a small number.
#[derive(Drop)]
pub(crate) struct BareStore {
    bare: Bare,
}

impl BareStore {
    /// `None` is want of memory.
    pub(crate) fn open(alloc: Global) -> Option<BareStore> {
        Some(BareStore {
            bare: Bare::open(alloc, 0)?,
        })
    }
}

impl Work for BareStore {
    #[inline(always)]
    fn round(&mut self, lock: u32) -> u64 {
        let bare = &mut self.bare;
        let table = &bare.table;
        table
            .shared
            .store::<Anything>(&mut bare.seat, 0, lock as u64);
        lock as u64
    }
}

/// A compare and exchange of 0 for a bit, and where it was 0 a fetch-add that takes the bit away.
#[derive(Drop)]
pub(crate) struct BarePair {
    bare: Bare,
}

impl BarePair {
    /// `None` is want of memory.
    pub(crate) fn open(alloc: Global) -> Option<BarePair> {
        Some(BarePair {
            bare: Bare::open(alloc, 0)?,
        })
    }
}

impl Work for BarePair {
    #[inline(always)]
    fn round(&mut self, lock: u32) -> u64 {
        let bare = &mut self.bare;
        let table = &bare.table;
        let words = &table.shared;
        let place = lock as usize;
        let found = words.compare_exchange::<Anything>(&mut bare.seat, place, 0, BIT);
        if found != 0 {
            return found;
        }
        words.fetch_add::<Anything>(&mut bare.seat, place, u64::MAX - BIT + 1)
    }
}

/// A load, where the word is 0 a compare and exchange of 0 for a bit, and where that found 0 a fetch-add that takes the
/// bit away.
#[derive(Drop)]
pub(crate) struct BareTry {
    bare: Bare,
}

impl BareTry {
    /// `None` is want of memory.
    pub(crate) fn open(alloc: Global) -> Option<BareTry> {
        Some(BareTry {
            bare: Bare::open(alloc, 0)?,
        })
    }
}

impl Work for BareTry {
    #[inline(always)]
    fn round(&mut self, lock: u32) -> u64 {
        let bare = &mut self.bare;
        let table = &bare.table;
        let words = &table.shared;
        let place = lock as usize;
        let loaded = words.load::<Anything>(&mut bare.seat, place);
        if loaded != 0 {
            return 0;
        }
        let found = words.compare_exchange::<Anything>(&mut bare.seat, place, 0, BIT);
        if found != 0 {
            return 0;
        }
        words.fetch_add::<Anything>(&mut bare.seat, place, u64::MAX - BIT + 1);
        1
    }
}
