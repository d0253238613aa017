//! Attaching a batch that is prepared.
ghost use Rattle.std.specs.Prelude.{◌≡◌, ℕ, ◌<◌, length};
ghost use Rattle.body_ident.specs.Id.{Id};
ghost use Rattle.core_state.specs.declared.view.Mode.{Mode};
ghost use Rattle.core_state.specs.Encoding.{slot_tree};
ghost use Rattle.word_map.specs.declared.name.Name.TheVariants.{Slot};
ghost use Rattle.pass_table.specs.Passes.{view_of, IsOf, IsIdle};
ghost use Rattle.pass_table.specs.Bodies.{IsGuarding, IsAlone};
ghost use Rattle.pass_table.specs.Calls.{StoresWord};
ghost use Rattle.pass_table.specs.Turning.{OneStep};
ghost use Rattle.body_lock.specs.declared.multi_guard.MultiGuard.{MultiGuard};
ghost use Rattle.body_lock.specs.Multi.{IsMultiGood};
ghost use Rattle.batch_add.specs.declared.prepared.Prepared.{Prepared};
ghost use Rattle.batch_add.specs.Drawing.{node_at};
ghost use Rattle.batch_add.specs.declared.prepared_list.PreparedList.{PreparedList};
ghost use Rattle.batch_add.specs.Prepared.{IsGood, IsApart, HasAttached};
ghost use Rattle.batch_add.specs.PreparedLists.{AreGood, IsBeside};

use crate::prepared::Prepared;
use pass_table::{Pass, World, step_24};
use word_map::{Name, SlotWord};

/// Attaches a batch: by one store all its bodies are in the broad phase, and its tree is one of their layer.
///
/// It is one step, which never waits, needs no memory and is not refused. Nothing else changes: the pass holds the locks that
/// it held, and what it locked and its other batches are good still.
pub fn finalize(world: &World, pass: &mut Pass, batch: Prepared)
    requires of { IsOf world.now pass.old }
    requires good { IsGood batch (view_of pass.old) }
    ensures of { IsOf world.now pass.new }
    ensures idle { IsIdle world.now pass.old → IsIdle world.now pass.new }
    ensures attached { HasAttached batch (view_of pass.old) (view_of pass.new) }
    ensures one { OneStep (view_of pass.old) (view_of pass.new) }
    ensures stores { StoresWord (view_of pass.old) (view_of pass.new) (Slot batch.layer batch.slot) (slot_tree (node_at batch.nodes.items 0)) }
    ensures locks { (view_of pass.new).locks ≡ (view_of pass.old).locks }
    ensures guards { (number : ℕ) (id : Id) (mode : Mode) → IsGuarding number id mode (view_of pass.old) → IsGuarding number id mode (view_of pass.new) }
    ensures alone { (number : ℕ) (id : Id) (mode : Mode) → IsAlone number id mode (view_of pass.old) → IsAlone number id mode (view_of pass.new) }
    ensures multi { (guard : MultiGuard) → IsMultiGood guard (view_of pass.old) → IsMultiGood guard (view_of pass.new) }
    ensures others { (other : Prepared) → IsGood other (view_of pass.old) → IsApart other batch → IsGood other (view_of pass.new) }
    ensures lists { (list : PreparedList) → AreGood list (view_of pass.old) → IsBeside batch list → AreGood list (view_of pass.new) }
{
    let Prepared {
        number: _number,
        layer,
        slot,
        indexes: _indexes,
        nodes,
    } = batch;
    let root = first_node(nodes.as_slice());
    let tree = SlotWord::Tree { root };
    step_24(world, pass, Name::Slot(layer, slot), tree.to_word());
}

/// The first of some nodes.
fn first_node(nodes: &[u32]) -> u32
    requires { 0 < length nodes.now }
    ensures { result ≡ node_at nodes.now 0 }
{
    nodes[0]
}
