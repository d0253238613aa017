//! The kinds of step on lists of free places, under the lock of the list: the free indexes, and the pool of nodes with its
//! count.
ghost use Rattle.word_map.specs.Names.{IsName};
ghost use Rattle.core_state.specs.Lists.{MayLoadList, load_list};
ghost use Rattle.pass_table.specs.Stepping.{Stepped};
ghost use Rattle.pass_table.specs.Numbered.{MayLink, Linked, MayHead, Headed};
ghost use Rattle.pass_table.specs.Passes.{view_of, IsOf};

use crate::kind::{Kind, StillKind};
use crate::pass::Pass;
use crate::world::World;
use word_map::Name;

/// Kind 9: load a word of a list.
pub(crate) struct LoadList;

impl Kind for LoadList {
    ghost use Rattle.core_state.specs.Lists as lists;
    ghost use Rattle.core_state.specs.Event.{of_lists, loads_list};

    ghost asks = { lists.MayLoadList };

    ghost kind = { lists.load_list };

    ghost event = { λ before after steps. of_lists (loads_list steps) };
}

impl StillKind for LoadList {
    ghost use Rattle.std.proofs.Common.{refl};

    ghost still = { λ view name found first second. (refl, refl) };
}

/// Kind 9, load a word of a list.
#[inline(always)]
pub fn step_9(world: &World, pass: &mut Pass, name: Name) -> u64
    requires of { IsOf world.now pass.old }
    requires named { IsName world.now.map name }
    requires asks { MayLoadList (view_of pass.old) name 0 0 }
    ensures of { IsOf world.now pass.new }
    ensures step { Stepped MayLoadList load_list (view_of pass.old) name 0 0 result (view_of pass.new) }
{
    pass.load::<LoadList>(world, name)
}

/// Kind 10: store a link.
pub(crate) struct StoreLink;

impl Kind for StoreLink {
    ghost use Rattle.core_state.specs.Lists as lists;
    ghost use Rattle.core_state.specs.Event.{of_lists, stores_link};

    ghost asks = { lists.MayStoreLink };

    ghost kind = { lists.store_link };

    ghost event = { λ before after steps. of_lists (stores_link steps) };
}

impl StillKind for StoreLink {
    ghost use Rattle.std.proofs.Common.{refl};

    ghost still = { λ view name found first second. (refl, refl) };
}

/// Kind 10: store a link of the pool.
pub(crate) struct StorePoolLink;

impl Kind for StorePoolLink {
    ghost use Rattle.core_state.specs.Pool as pool;
    ghost use Rattle.core_state.specs.Event.{of_pool, stores_pool_link};

    ghost asks = { pool.MayStorePoolLink };

    ghost kind = { pool.store_pool_link };

    ghost event = { λ before after steps. of_pool (stores_pool_link steps) };
}

impl StillKind for StorePoolLink {
    ghost use Rattle.std.proofs.Common.{refl};

    ghost still = { λ view name found first second. (refl, refl) };
}

/// Kind 10, store the link of an index or of a node that is put in front of its list: it becomes the head.
#[inline(always)]
pub fn step_10(world: &World, pass: &mut Pass, name: Name, value: u64)
    requires of { IsOf world.now pass.old }
    requires named { IsName world.now.map name }
    requires asks { MayLink (view_of pass.old) name value }
    ensures of { IsOf world.now pass.new }
    ensures step { Linked (view_of pass.old) name value (view_of pass.new) }
{
    match name {
        Name::SlotNext(_) => pass.store::<StoreLink>(world, name, value),
        Name::PoolNext(_) => pass.store::<StorePoolLink>(world, name, value),
        _ => unreachable!(),
    }
}

/// Kind 11: store a head.
pub(crate) struct StoreHead;

impl Kind for StoreHead {
    ghost use Rattle.core_state.specs.Lists as lists;
    ghost use Rattle.core_state.specs.Event.{of_lists, stores_head};

    ghost asks = { lists.MayStoreHead };

    ghost kind = { lists.store_head };

    ghost event = { λ before after steps. of_lists (stores_head steps) };
}

impl StillKind for StoreHead {
    ghost use Rattle.std.proofs.Common.{refl};

    ghost still = { λ view name found first second. (refl, refl) };
}

/// Kind 11: store the head of the pool.
pub(crate) struct StorePoolHead;

impl Kind for StorePoolHead {
    ghost use Rattle.core_state.specs.Pool as pool;
    ghost use Rattle.core_state.specs.Event.{of_pool, stores_pool_head};

    ghost asks = { pool.MayStorePoolHead };

    ghost kind = { pool.store_pool_head };

    ghost event = { λ before after steps. of_pool (stores_pool_head steps) };
}

impl StillKind for StorePoolHead {
    ghost use Rattle.core_batch.proofs.LocksStay.{pool_head-still};

    ghost still = { pool_head-still };
}

/// Kind 11: store the number of free nodes.
pub(crate) struct StorePoolCount;

impl Kind for StorePoolCount {
    ghost use Rattle.core_state.specs.Pool as pool;
    ghost use Rattle.core_state.specs.Event.{of_pool, stores_pool_count};

    ghost asks = { pool.MayStorePoolCount };

    ghost kind = { pool.store_pool_count };

    ghost event = { λ before after steps. of_pool (stores_pool_count steps) };
}

impl StillKind for StorePoolCount {
    ghost use Rattle.std.proofs.Common.{refl};

    ghost still = { λ view name found first second. (refl, refl) };
}

/// Kind 11, store the head of a list, or the number of free nodes. A head is the link of the first element, which is
/// taken off: an index for a body that is to be created, a node for the newest batch. Or it is 1 more than an element
/// that is put in front: the index of a live body, which is to be destroyed, or a node that the pass is to give back.
#[inline(always)]
pub fn step_11(world: &World, pass: &mut Pass, name: Name, value: u64)
    requires of { IsOf world.now pass.old }
    requires named { IsName world.now.map name }
    requires asks { MayHead (view_of pass.old) name value }
    ensures of { IsOf world.now pass.new }
    ensures step { Headed (view_of pass.old) name value (view_of pass.new) }
{
    match name {
        Name::SlotHead => pass.store::<StoreHead>(world, name, value),
        Name::PoolHead => pass.store::<StorePoolHead>(world, name, value),
        Name::PoolFree => pass.store::<StorePoolCount>(world, name, value),
        _ => unreachable!(),
    }
}
