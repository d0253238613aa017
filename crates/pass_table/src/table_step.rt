//! Single steps: one function for each atomic operation, for all kinds.
ghost use Rattle.std.specs.Prelude.{◌≡◌};
ghost use Rattle.word_map.specs.Layout.{name_of};
ghost use Rattle.core_state.specs.Operation.{load, store, exchange, compare_exchange, fetch_add, fetch_min, fetch_max};
ghost use Rattle.pass_table.specs.Stepping.{MayStep, Stepped, Stored};

use crate::kind::Kind;
use crate::rule::{Seat, Words};
use atomic_table::Play;
use core_state::View;
use std::marker::PhantomData;

/// What a step of a kind tells.
pub(crate) struct Told<K> {
    kind: PhantomData<K>,
}

impl<K: Kind> Play<(), View> for Told<K> {
    ghost use Rattle.pass_table.specs.Stepping.{told};

    ghost then = { told K.asks K.kind };
}

/// What a store of a kind tells. The table does not tell a store what it found, so it is some word.
pub(crate) struct ToldOfStore<K> {
    kind: PhantomData<K>,
}

impl<K: Kind> Play<(), View> for ToldOfStore<K> {
    ghost use Rattle.pass_table.specs.Stepping.{told_of_store};

    ghost then = { λ step me said next. told_of_store K.asks K.kind step me next };
}

/// A load of the word at a place: exactly one step of the kind, whose operation has to be a load.
pub(crate) fn load<K: Kind>(table: &Words, seat: &mut Seat, place: usize) -> u64
    requires own { seat.old.table_id ≡ table.now.table_id }
    requires loads { K.kind.operation ≡ load }
    requires may { MayStep K.asks table.now.key table.now.table_id seat.old.me place 0 0 }
    ensures seat { (seat.new.table_id ≡ seat.old.table_id) × (seat.new.me.1 ≡ seat.old.me.1) }
    ensures step { Stepped K.asks K.kind seat.old.me.0 (name_of table.now.key place) 0 0 result seat.new.me.0 }
{
    table.load::<Told<K>>(seat, place)
}

/// A fetch-add at a place: exactly one step of the kind, whose operation has to be a fetch-add. It answers the word
/// that it found.
pub(crate) fn fetch_add<K: Kind>(table: &Words, seat: &mut Seat, place: usize, summand: u64) -> u64
    requires own { seat.old.table_id ≡ table.now.table_id }
    requires adds { K.kind.operation ≡ fetch_add }
    requires may { MayStep K.asks table.now.key table.now.table_id seat.old.me place summand 0 }
    ensures seat { (seat.new.table_id ≡ seat.old.table_id) × (seat.new.me.1 ≡ seat.old.me.1) }
    ensures step { Stepped K.asks K.kind seat.old.me.0 (name_of table.now.key place) summand 0 result seat.new.me.0 }
{
    table.fetch_add::<Told<K>>(seat, place, summand)
}

/// A compare and exchange at a place: exactly one step of the kind, whose operation has to be one. It answers the word
/// that it found.
pub(crate) fn compare_exchange<K: Kind>(
    table: &Words,
    seat: &mut Seat,
    place: usize,
    expected: u64,
    new: u64,
) -> u64
    requires own { seat.old.table_id ≡ table.now.table_id }
    requires exchanges { K.kind.operation ≡ compare_exchange }
    requires may { MayStep K.asks table.now.key table.now.table_id seat.old.me place expected new }
    ensures seat { (seat.new.table_id ≡ seat.old.table_id) × (seat.new.me.1 ≡ seat.old.me.1) }
    ensures step { Stepped K.asks K.kind seat.old.me.0 (name_of table.now.key place) expected new result seat.new.me.0 }
{
    table.compare_exchange::<Told<K>>(seat, place, expected, new)
}

/// A store at a place: exactly one step of the kind, whose operation has to be a store.
pub(crate) fn store<K: Kind>(table: &Words, seat: &mut Seat, place: usize, value: u64)
    requires own { seat.old.table_id ≡ table.now.table_id }
    requires stores { K.kind.operation ≡ store }
    requires may { MayStep K.asks table.now.key table.now.table_id seat.old.me place value 0 }
    ensures seat { (seat.new.table_id ≡ seat.old.table_id) × (seat.new.me.1 ≡ seat.old.me.1) }
    ensures step { Stored K.asks K.kind seat.old.me.0 (name_of table.now.key place) value seat.new.me.0 }
{
    table.store::<ToldOfStore<K>>(seat, place, value);
}

/// An exchange at a place: exactly one step of the kind, whose operation has to be an exchange. It answers the word
/// that it found.
pub(crate) fn exchange<K: Kind>(table: &Words, seat: &mut Seat, place: usize, value: u64) -> u64
    requires own { seat.old.table_id ≡ table.now.table_id }
    requires exchanges { K.kind.operation ≡ exchange }
    requires may { MayStep K.asks table.now.key table.now.table_id seat.old.me place value 0 }
    ensures seat { (seat.new.table_id ≡ seat.old.table_id) × (seat.new.me.1 ≡ seat.old.me.1) }
    ensures step { Stepped K.asks K.kind seat.old.me.0 (name_of table.now.key place) value 0 result seat.new.me.0 }
{
    table.swap::<Told<K>>(seat, place, value)
}

/// A fetch-min at a place: exactly one step of the kind, whose operation has to be a fetch-min. It answers the word
/// that it found.
pub(crate) fn fetch_min<K: Kind>(table: &Words, seat: &mut Seat, place: usize, value: u64) -> u64
    requires own { seat.old.table_id ≡ table.now.table_id }
    requires lessens { K.kind.operation ≡ fetch_min }
    requires may { MayStep K.asks table.now.key table.now.table_id seat.old.me place value 0 }
    ensures seat { (seat.new.table_id ≡ seat.old.table_id) × (seat.new.me.1 ≡ seat.old.me.1) }
    ensures step { Stepped K.asks K.kind seat.old.me.0 (name_of table.now.key place) value 0 result seat.new.me.0 }
{
    table.fetch_min::<Told<K>>(seat, place, value)
}

/// A fetch-max at a place: exactly one step of the kind, whose operation has to be a fetch-max. It answers the word
/// that it found.
pub(crate) fn fetch_max<K: Kind>(table: &Words, seat: &mut Seat, place: usize, value: u64) -> u64
    requires own { seat.old.table_id ≡ table.now.table_id }
    requires raises { K.kind.operation ≡ fetch_max }
    requires may { MayStep K.asks table.now.key table.now.table_id seat.old.me place value 0 }
    ensures seat { (seat.new.table_id ≡ seat.old.table_id) × (seat.new.me.1 ≡ seat.old.me.1) }
    ensures step { Stepped K.asks K.kind seat.old.me.0 (name_of table.now.key place) value 0 result seat.new.me.0 }
{
    table.fetch_max::<Told<K>>(seat, place, value)
}
