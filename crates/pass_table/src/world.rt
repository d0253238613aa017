//! A world: its words, and where each is.
ghost use Rattle.std.specs.Prelude.{◌≡◌, ◌<◌};
ghost use Rattle.word_map.specs.Limits.{IsConfig};
ghost use Rattle.word_map.specs.Names.{stripe_of, index_lock, pool_lock};
ghost use Rattle.word_map.specs.Layout.{word_count};

use crate::rule::CoreRule;
use atomic_table::Table;
use core_state::View;
use std::alloc::Global;
use word_map::{Config, Map};

/// The words that the callers of a world share.
///
/// A world may be shared between threads: its words change only by the steps of its passes, each one atomic.
#[derive(Drop)]
pub struct World {
    pub(crate) map: Map,
    pub(crate) table: Table<(), View, Config, CoreRule, Global>,
    ghost in_limits: { IsConfig map },
    ghost sized: { (table.shared.key ≡ map) × (table.shared.table_id.words ≡ word_count map) },
}

impl World {
    /// The sizes that the world was opened with.
    pub fn config(&self) -> Config
        ensures sizes { result ≡ self.now.map }
        ensures in_limits { IsConfig result }
    {
        self.map.config()
    }

    /// The stripe of the body at an index: the lock under which its words stand still. Bodies share stripes.
    #[inline(always)]
    pub fn stripe_of(&self, index: u32) -> u32
        ensures value { result ≡ stripe_of self.now.map index }
        ensures in_range { result < self.now.map.stripes }
    {
        self.map.stripe_of(index)
    }

    /// The lock of the list of free body indexes. It is taken after stripes.
    #[inline(always)]
    pub fn index_lock(&self) -> u32
        ensures { result ≡ index_lock self.now.map }
    {
        self.map.index_lock()
    }

    /// The lock of the pool of batch nodes. It is taken after stripes.
    #[inline(always)]
    pub fn pool_lock(&self) -> u32
        ensures { result ≡ pool_lock self.now.map }
    {
        self.map.pool_lock()
    }
}
