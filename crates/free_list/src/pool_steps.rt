//! The single steps on the pool of free batch nodes, each one typed call, under the pool's lock.
ghost use Rattle.std.specs.Prelude.{◌≡◌, ℕ, suc, ◌+◌, ◌<◌, Contains};
ghost use Rattle.word_map.specs.declared.name.Name.TheVariants.{PoolHead, PoolNext, PoolFree};
ghost use Rattle.core_state.specs.View.{known_word};
ghost use Rattle.core_state.specs.NodesInOnePlace.{IsPooling};
ghost use Rattle.core_state.specs.Pool.{HasPool, TakesNode};
ghost use Rattle.pass_table.specs.Passes.{view_of, IsOf};
ghost use Rattle.free_list.specs.Pool.{taken_in, given_in, LoadedPoolHead, LoadedPoolLink, TookNode, LinkedNode, GaveNode, LoadedCount, StoredCount};

use pass_table::{Pass, World, step_9, step_10, step_11};
use word_map::Name;

/// Loads the head of the pool: 1 more than the first free node, and 0 where there is none. There is one while the pass
/// has taken fewer nodes than the count says.
#[inline(always)]
pub fn load_pool_head(world: &World, pass: &mut Pass) -> u64
    requires of { IsOf world.now pass.old }
    requires pool { HasPool (view_of pass.old) }
    ensures of { IsOf world.now pass.new }
    ensures loaded { LoadedPoolHead (view_of pass.old) (view_of pass.new) result }
{
    step_9(world, pass, Name::PoolHead)
}

/// Loads the link of a node: 1 more than the next free node, and 0 where it is the last.
#[inline(always)]
pub fn load_pool_link(world: &World, pass: &mut Pass, node: u32) -> u64
    requires of { IsOf world.now pass.old }
    requires pool { HasPool (view_of pass.old) }
    requires below { node < world.now.map.nodes }
    ensures of { IsOf world.now pass.new }
    ensures loaded { LoadedPoolLink (view_of pass.old) (view_of pass.new) node result }
{
    step_9(world, pass, Name::PoolNext(node))
}

/// Takes the first node off, for the newest batch of the pass: the head becomes its link.
#[inline(always)]
pub fn take_node_off(world: &World, pass: &mut Pass, link: u64)
    requires of { IsOf world.now pass.old }
    requires pool { HasPool (view_of pass.old) }
    requires takes { TakesNode (view_of pass.old) link }
    ensures of { IsOf world.now pass.new }
    ensures taken { (node : ℕ) → known_word (view_of pass.old) PoolHead ≡ suc node → TookNode (view_of pass.old) (view_of pass.new) node link }
{
    step_11(world, pass, Name::PoolHead, link);
}

/// Stores the link of a node that the pass is to give back: it becomes the head.
#[inline(always)]
pub fn store_pool_link(world: &World, pass: &mut Pass, node: u32, head: u64)
    requires of { IsOf world.now pass.old }
    requires pool { HasPool (view_of pass.old) }
    requires below { node < world.now.map.nodes }
    requires loose { Contains (view_of pass.old).loose node }
    requires head { head ≡ known_word (view_of pass.old) PoolHead }
    ensures of { IsOf world.now pass.new }
    ensures linked { LinkedNode (view_of pass.old) (view_of pass.new) node head }
{
    step_10(world, pass, Name::PoolNext(node), head);
}

/// Puts a node in front that the pass is to give back, whose link is the head.
#[inline(always)]
pub fn put_node_in_front(world: &World, pass: &mut Pass, node: u32)
    requires of { IsOf world.now pass.old }
    requires pool { HasPool (view_of pass.old) }
    requires loose { Contains (view_of pass.old).loose node }
    requires link { known_word (view_of pass.old) (PoolNext node) ≡ known_word (view_of pass.old) PoolHead }
    ensures of { IsOf world.now pass.new }
    ensures given { GaveNode (view_of pass.old) (view_of pass.new) node }
{
    step_11(world, pass, Name::PoolHead, u64::from(node) + 1);
}

/// Loads the count of free nodes.
#[inline(always)]
pub fn load_count(world: &World, pass: &mut Pass) -> u64
    requires of { IsOf world.now pass.old }
    requires pool { HasPool (view_of pass.old) }
    ensures of { IsOf world.now pass.new }
    ensures loaded { LoadedCount (view_of pass.old) (view_of pass.new) result }
{
    step_9(world, pass, Name::PoolFree)
}

/// Stores the count of free nodes, after the last node was taken or given. Nothing is half done then.
#[inline(always)]
pub fn store_count(world: &World, pass: &mut Pass, count: u64)
    requires of { IsOf world.now pass.old }
    requires pool { HasPool (view_of pass.old) }
    requires pooling { IsPooling (view_of pass.old).call.task }
    requires counts { count + taken_in (view_of pass.old).call.task ≡ known_word (view_of pass.old) PoolFree + given_in (view_of pass.old).call.task }
    ensures of { IsOf world.now pass.new }
    ensures stored { StoredCount (view_of pass.old) (view_of pass.new) count }
{
    step_11(world, pass, Name::PoolFree, count);
}
