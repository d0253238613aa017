//! The kinds of step on nodes that a pass owns.
ghost use Rattle.std.specs.Prelude.{◌≡◌, ℕ};
ghost use Rattle.word_map.specs.declared.name.Name.TheVariants.{Child, Bound, Parent};
ghost use Rattle.word_map.specs.Names.{IsName};
ghost use Rattle.core_state.specs.Batches.{MayStoreNode, store_node};
ghost use Rattle.pass_table.specs.Stepping.{Stored};
ghost use Rattle.pass_table.specs.Passes.{view_of, IsOf};

use crate::kind::{Kind, StillKind};
use crate::pass::Pass;
use crate::world::World;
use word_map::Name;

/// Kind 20: store a word of an own node; kinds 21 and 22 too.
pub(crate) struct StoreNode;

impl Kind for StoreNode {
    ghost use Rattle.core_state.specs.Batches as batches;
    ghost use Rattle.core_state.specs.Event.{of_batches, stores_node};

    ghost asks = { batches.MayStoreNode };

    ghost kind = { batches.store_node };

    ghost event = { λ before after steps. of_batches (stores_node steps) };
}

impl StillKind for StoreNode {
    ghost use Rattle.std.proofs.Common.{refl};

    ghost still = { λ view name found first second. (refl, refl) };
}

/// Kind 20, store a child of a node of the pass's own.
#[inline(always)]
pub fn step_20(world: &World, pass: &mut Pass, name: Name, value: u64)
    requires of { IsOf world.now pass.old }
    requires named { IsName world.now.map name }
    requires child { (node : ℕ) × (child : ℕ) × (name ≡ Child node child) }
    requires asks { MayStoreNode (view_of pass.old) name value 0 }
    ensures of { IsOf world.now pass.new }
    ensures step { Stored MayStoreNode store_node (view_of pass.old) name value (view_of pass.new) }
{
    pass.store::<StoreNode>(world, name, value);
}

/// Kind 21, store a side of a bound of a node of the pass's own.
#[inline(always)]
pub fn step_21(world: &World, pass: &mut Pass, name: Name, value: u64)
    requires of { IsOf world.now pass.old }
    requires named { IsName world.now.map name }
    requires bound { (node : ℕ) × (child : ℕ) × (side : ℕ) × (name ≡ Bound node child side) }
    requires asks { MayStoreNode (view_of pass.old) name value 0 }
    ensures of { IsOf world.now pass.new }
    ensures step { Stored MayStoreNode store_node (view_of pass.old) name value (view_of pass.new) }
{
    pass.store::<StoreNode>(world, name, value);
}

/// Kind 22, store the parent of a node of the pass's own.
#[inline(always)]
pub fn step_22(world: &World, pass: &mut Pass, name: Name, value: u64)
    requires of { IsOf world.now pass.old }
    requires named { IsName world.now.map name }
    requires parent { (node : ℕ) × (name ≡ Parent node) }
    requires asks { MayStoreNode (view_of pass.old) name value 0 }
    ensures of { IsOf world.now pass.new }
    ensures step { Stored MayStoreNode store_node (view_of pass.old) name value (view_of pass.new) }
{
    pass.store::<StoreNode>(world, name, value);
}
