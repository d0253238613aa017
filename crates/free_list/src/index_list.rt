//! Taking the first index off the list of free ones, and putting one in front.
ghost use Rattle.std.specs.Prelude.{IfOk, IfErr};
ghost use Rattle.core_state.specs.Lists.{HasList};
ghost use Rattle.pass_table.specs.Passes.{view_of, IsOf};
ghost use Rattle.free_list.specs.Calls.{PoppedIndex, HadNoIndex, MayPutIndex, PushedIndex};

use crate::index_steps::{load_head, load_link, put_in_front, store_link, take_off};
use crate::list::Empty;
use pass_table::{Pass, World};

/// Takes the first index off the list, for a body that is to be created.
pub(crate) fn pop_index(world: &World, pass: &mut Pass) -> Result<u32, Empty>
    requires of { IsOf world.now pass.old }
    requires list { HasList (view_of pass.old) }
    ensures of { IsOf world.now pass.new }
    ensures popped { IfOk result (PoppedIndex (view_of pass.old) (view_of pass.new)) }
    ensures empty { IfErr result (HadNoIndex (view_of pass.old) (view_of pass.new)) }
{
    let head = load_head(world, pass);
    if head == 0 {
        return Err(Empty { head });
    }
    let index = (head - 1) as u32;
    let link = load_link(world, pass, index);
    take_off(world, pass, link);
    Ok(index)
}

/// Puts the index of a live body in front of the list, which is to be destroyed.
pub(crate) fn push_index(world: &World, pass: &mut Pass, item: u32)
    requires of { IsOf world.now pass.old }
    requires may { MayPutIndex (view_of pass.old) item }
    ensures of { IsOf world.now pass.new }
    ensures pushed { PushedIndex (view_of pass.old) (view_of pass.new) item }
{
    let head = load_head(world, pass);
    store_link(world, pass, item, head);
    put_in_front(world, pass, item);
}
