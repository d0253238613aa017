//! Taking the first place off a list, and putting one in front.
ghost use Rattle.std.specs.Prelude.{IfOk, IfErr};
ghost use Rattle.pass_table.specs.Passes.{view_of, IsOf};
ghost use Rattle.free_list.specs.Calls.{MayPop, Popped, WasEmpty, MayPush, Pushed};

use crate::index_list::{pop_index, push_index};
use crate::list::{Empty, ListName};
use crate::node_pool::{pop_node, push_node};
use pass_table::{Pass, World};

/// Takes the first place off a list, whose lock the pass holds to write: an index for a body that is to be created,
/// where nothing is half done; or a node for the newest batch of the pass, where nothing but the pool is half done.
///
/// It is refused exactly where there is none.
pub fn pop(world: &World, pass: &mut Pass, list: ListName) -> Result<u32, Empty>
    requires of { IsOf world.now pass.old }
    requires may { MayPop list (view_of pass.old) }
    ensures of { IsOf world.now pass.new }
    ensures popped { IfOk result (Popped list (view_of pass.old) (view_of pass.new)) }
    ensures empty { IfErr result (WasEmpty list (view_of pass.old) (view_of pass.new)) }
{
    match list {
        ListName::Bodies => pop_index(world, pass),
        ListName::Nodes => pop_node(world, pass),
    }
}

/// Puts a place in front of a list, whose lock the pass holds to write: the index of a live body that is out, which is
/// to be destroyed, where the pass holds its stripe to write and nothing is half done; or a node that the pass is to give
/// back, where nothing but the pool is half done.
pub fn push(world: &World, pass: &mut Pass, list: ListName, item: u32)
    requires of { IsOf world.now pass.old }
    requires may { MayPush list (view_of pass.old) item }
    ensures of { IsOf world.now pass.new }
    ensures pushed { Pushed list (view_of pass.old) (view_of pass.new) item }
{
    match list {
        ListName::Bodies => push_index(world, pass, item),
        ListName::Nodes => push_node(world, pass, item),
    }
}
