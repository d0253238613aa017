//! The kinds of step of a removal: a body in the broad phase is taken out, then its entries in trees are cleared, and then
//! its locations. The pass holds its stripe all the while.
//!
//! Others may walk through the trees meanwhile and find the body, or nothing where its entry stood.
ghost use Rattle.word_map.specs.Names.{IsName};
ghost use Rattle.core_state.specs.Removing.{MayRemove, remove, MayClearEntry, clear_entry, MayClearLocation, clear_location};
ghost use Rattle.pass_table.specs.Stepping.{Stored};
ghost use Rattle.pass_table.specs.Passes.{view_of, IsOf};

use crate::kind::{Kind, StillKind};
use crate::pass::Pass;
use crate::world::World;
use word_map::Name;

/// Kind 39: take a body out.
pub(crate) struct Remove;

impl Kind for Remove {
    ghost use Rattle.core_state.specs.Removing as removing;
    ghost use Rattle.core_state.specs.Event.{of_removals, removes};

    ghost asks = { removing.MayRemove };

    ghost kind = { removing.remove };

    ghost event = { λ before after steps. of_removals (removes steps) };
}

impl StillKind for Remove {
    ghost use Rattle.core_move.proofs.LocksStay.{remove-still};

    ghost still = { remove-still };
}

/// Kind 39, take a body out of the broad phase, under its stripe: its phase word says that it is out. Entry: the removal.
#[inline(always)]
pub fn step_39(world: &World, pass: &mut Pass, name: Name, value: u64)
    requires of { IsOf world.now pass.old }
    requires named { IsName world.now.map name }
    requires asks { MayRemove (view_of pass.old) name value 0 }
    ensures of { IsOf world.now pass.new }
    ensures step { Stored MayRemove remove (view_of pass.old) name value (view_of pass.new) }
{
    pass.store::<Remove>(world, name, value);
}

/// Kind 40: clear an entry.
pub(crate) struct ClearEntry;

impl Kind for ClearEntry {
    ghost use Rattle.core_state.specs.Removing as removing;
    ghost use Rattle.core_state.specs.Event.{of_removals, clears_entry};

    ghost asks = { removing.MayClearEntry };

    ghost kind = { removing.clear_entry };

    ghost event = { λ before after steps. of_removals (clears_entry steps) };
}

impl StillKind for ClearEntry {
    ghost use Rattle.std.proofs.Common.{refl};

    ghost still = { λ view name found first second. (refl, refl) };
}

/// Kind 40, clear the entry at a location of the body that the pass takes out.
#[inline(always)]
pub fn step_40(world: &World, pass: &mut Pass, name: Name, value: u64)
    requires of { IsOf world.now pass.old }
    requires named { IsName world.now.map name }
    requires asks { MayClearEntry (view_of pass.old) name value 0 }
    ensures of { IsOf world.now pass.new }
    ensures step { Stored MayClearEntry clear_entry (view_of pass.old) name value (view_of pass.new) }
{
    pass.store::<ClearEntry>(world, name, value);
}

/// Kind 41: clear a location.
pub(crate) struct ClearLocation;

impl Kind for ClearLocation {
    ghost use Rattle.core_state.specs.Removing as removing;
    ghost use Rattle.core_state.specs.Event.{of_removals, clears_location};

    ghost asks = { removing.MayClearLocation };

    ghost kind = { removing.clear_location };

    ghost event = { λ before after steps. of_removals (clears_location steps) };
}

impl StillKind for ClearLocation {
    ghost use Rattle.core_move.proofs.LocksStay.{clear_location-still};

    ghost still = { clear_location-still };
}

/// Kind 41, clear a location of the body that the pass takes out, once its entries are cleared: the first one, and then
/// the second one, which ends the removal.
#[inline(always)]
pub fn step_41(world: &World, pass: &mut Pass, name: Name, value: u64)
    requires of { IsOf world.now pass.old }
    requires named { IsName world.now.map name }
    requires asks { MayClearLocation (view_of pass.old) name value 0 }
    ensures of { IsOf world.now pass.new }
    ensures step { Stored MayClearLocation clear_location (view_of pass.old) name value (view_of pass.new) }
{
    pass.store::<ClearLocation>(world, name, value);
}
