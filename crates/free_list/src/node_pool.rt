//! Taking the first node off the pool, and putting one in front. The count of free nodes stays as it was: it is stored
//! once, when the last of them is taken or given.
ghost use Rattle.std.specs.Prelude.{IfOk, IfErr};
ghost use Rattle.pass_table.specs.Passes.{view_of, IsOf};
ghost use Rattle.free_list.specs.Calls.{MayTakeNode, PoppedNode, HadNoNode, MayGiveNode, PushedNode};

use crate::list::Empty;
use crate::pool_steps::{
    load_pool_head, load_pool_link, put_node_in_front, store_pool_link, take_node_off,
};
use pass_table::{Pass, World};

/// Takes the first node off the pool, for the newest batch of the pass.
pub(crate) fn pop_node(world: &World, pass: &mut Pass) -> Result<u32, Empty>
    requires of { IsOf world.now pass.old }
    requires may { MayTakeNode (view_of pass.old) }
    ensures of { IsOf world.now pass.new }
    ensures popped { IfOk result (PoppedNode (view_of pass.old) (view_of pass.new)) }
    ensures empty { IfErr result (HadNoNode (view_of pass.old) (view_of pass.new)) }
{
    let head = load_pool_head(world, pass);
    if head == 0 {
        return Err(Empty { head });
    }
    let node = (head - 1) as u32;
    let link = load_pool_link(world, pass, node);
    take_node_off(world, pass, link);
    Ok(node)
}

/// Puts a node in front of the pool that the pass is to give back.
pub(crate) fn push_node(world: &World, pass: &mut Pass, item: u32)
    requires of { IsOf world.now pass.old }
    requires may { MayGiveNode (view_of pass.old) item }
    ensures of { IsOf world.now pass.new }
    ensures pushed { PushedNode (view_of pass.old) (view_of pass.new) item }
{
    let head = load_pool_head(world, pass);
    store_pool_link(world, pass, item, head);
    put_node_in_front(world, pass, item);
}
