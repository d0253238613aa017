//! The kinds of step of a move. First the bounds of trees are widened for the box that a body is to have, from each of
//! its locations up to the root; then its box words are stored, and with the last of them the body has the box.
//!
//! Three of them are made for a body that the word does not name. Its index is a ghost value, which costs nothing: the
//! caller picks it where it proves the call. The pass holds the stripe of that body all the while. Others may widen the
//! same bounds meanwhile, and read them; nobody makes one narrower.
ghost use Rattle.std.specs.Prelude.{ℕ};
ghost use Rattle.word_map.specs.Names.{IsName};
ghost use Rattle.core_state.specs.Moving.{MayWidenLow, widen_low, MayWidenHigh, widen_high, MayLoadParentMoving, load_parent_moving, MayStoreSide, store_side, MayStoreLastSide, store_last_side};
ghost use Rattle.pass_table.specs.Stepping.{Stepped, Stored};
ghost use Rattle.pass_table.specs.Passes.{view_of, IsOf};

use crate::kind::{Kind, StillKind};
use crate::pass::Pass;
use crate::world::World;
use std::marker::{Brand, PhantomData};
use word_map::Name;

/// The body for which a step is made whose word does not name it, for proofs alone.
pub(crate) trait OfBody {
    ghost use Rattle.std.specs.Prelude.{ℕ};

    /// Its index.
    ghost index: { ℕ };
}

impl OfBody for Brand {
    ghost index = { 0 };
}

/// Kind 34: widen a low side of a bound.
pub(crate) struct WidenLow<B> {
    body: PhantomData<B>,
}

impl<B: OfBody> Kind for WidenLow<B> {
    ghost use Rattle.core_state.specs.Moving as moving;
    ghost use Rattle.core_state.specs.Event.{of_moves, widens_low};

    ghost asks = { moving.MayWidenLow B.index };

    ghost kind = { moving.widen_low B.index };

    ghost event = { λ before after steps. of_moves (widens_low B.index steps) };
}

impl<B: OfBody> StillKind for WidenLow<B> {
    ghost use Rattle.core_move.proofs.LocksStay.{widen_low-still};

    ghost still = { widen_low-still B.index };
}

/// The step of kind 34 for a body.
#[inline(always)]
fn widen_low<B: OfBody>(world: &World, pass: &mut Pass, name: Name, value: u64) -> u64
    requires of { IsOf world.now pass.old }
    requires named { IsName world.now.map name }
    requires asks { MayWidenLow B.index (view_of pass.old) name value 0 }
    ensures of { IsOf world.now pass.new }
    ensures step { Stepped (MayWidenLow B.index) (widen_low B.index) (view_of pass.old) name value 0 result (view_of pass.new) }
{
    pass.fetch_min::<WidenLow<B>>(world, name, value)
}

/// Kind 34, widen a low side of a bound for the box that a body is to have: the word is then the lesser of what it was
/// and `value`, the word of a coordinate. The first side of a move is at a location of the body. It answers the word found.
#[inline(always)]
pub fn step_34(world: &World, pass: &mut Pass, name: Name, value: u64) -> u64
    ghost index: { ℕ }
    requires of { IsOf world.now pass.old }
    requires named { IsName world.now.map name }
    requires asks { MayWidenLow index (view_of pass.old) name value 0 }
    ensures of { IsOf world.now pass.new }
    ensures step { Stepped (MayWidenLow index) (widen_low index) (view_of pass.old) name value 0 result (view_of pass.new) }
{
    widen_low::<Brand>(world, pass, name, value)
}

/// Kind 35: widen a high side of a bound.
pub(crate) struct WidenHigh<B> {
    body: PhantomData<B>,
}

impl<B: OfBody> Kind for WidenHigh<B> {
    ghost use Rattle.core_state.specs.Moving as moving;
    ghost use Rattle.core_state.specs.Event.{of_moves, widens_high};

    ghost asks = { moving.MayWidenHigh B.index };

    ghost kind = { moving.widen_high B.index };

    ghost event = { λ before after steps. of_moves (widens_high B.index steps) };
}

impl<B: OfBody> StillKind for WidenHigh<B> {
    ghost use Rattle.core_move.proofs.LocksStay.{widen_high-still};

    ghost still = { widen_high-still B.index };
}

/// The step of kind 35 for a body.
#[inline(always)]
fn widen_high<B: OfBody>(world: &World, pass: &mut Pass, name: Name, value: u64) -> u64
    requires of { IsOf world.now pass.old }
    requires named { IsName world.now.map name }
    requires asks { MayWidenHigh B.index (view_of pass.old) name value 0 }
    ensures of { IsOf world.now pass.new }
    ensures step { Stepped (MayWidenHigh B.index) (widen_high B.index) (view_of pass.old) name value 0 result (view_of pass.new) }
{
    pass.fetch_max::<WidenHigh<B>>(world, name, value)
}

/// Kind 35, widen a high side of a bound for the box that a body is to have: the word is then the greater of what it was
/// and `value`, the word of a coordinate. It answers the word found.
#[inline(always)]
pub fn step_35(world: &World, pass: &mut Pass, name: Name, value: u64) -> u64
    ghost index: { ℕ }
    requires of { IsOf world.now pass.old }
    requires named { IsName world.now.map name }
    requires asks { MayWidenHigh index (view_of pass.old) name value 0 }
    ensures of { IsOf world.now pass.new }
    ensures step { Stepped (MayWidenHigh index) (widen_high index) (view_of pass.old) name value 0 result (view_of pass.new) }
{
    widen_high::<Brand>(world, pass, name, value)
}

/// Kind 36: load a parent in a move.
pub(crate) struct LoadParent<B> {
    body: PhantomData<B>,
}

impl<B: OfBody> Kind for LoadParent<B> {
    ghost use Rattle.core_state.specs.Moving as moving;
    ghost use Rattle.core_state.specs.Event.{of_moves, loads_parent};

    ghost asks = { moving.MayLoadParentMoving B.index };

    ghost kind = { moving.load_parent_moving B.index };

    ghost event = { λ before after steps. of_moves (loads_parent B.index steps) };
}

impl<B: OfBody> StillKind for LoadParent<B> {
    ghost use Rattle.std.proofs.Common.{refl};

    ghost still = { λ view name found first second. (refl, refl) };
}

/// The step of kind 36 for a body.
#[inline(always)]
fn load_parent<B: OfBody>(world: &World, pass: &mut Pass, name: Name) -> u64
    requires of { IsOf world.now pass.old }
    requires named { IsName world.now.map name }
    requires asks { MayLoadParentMoving B.index (view_of pass.old) name 0 0 }
    ensures of { IsOf world.now pass.new }
    ensures step { Stepped (MayLoadParentMoving B.index) (load_parent_moving B.index) (view_of pass.old) name 0 0 result (view_of pass.new) }
{
    pass.load::<LoadParent<B>>(world, name)
}

/// Kind 36, load the parent of a node that the move of a body has come to. It answers the place of the node in its
/// parent, or 0 where the node is a root.
#[inline(always)]
pub fn step_36(world: &World, pass: &mut Pass, name: Name) -> u64
    ghost index: { ℕ }
    requires of { IsOf world.now pass.old }
    requires named { IsName world.now.map name }
    requires asks { MayLoadParentMoving index (view_of pass.old) name 0 0 }
    ensures of { IsOf world.now pass.new }
    ensures step { Stepped (MayLoadParentMoving index) (load_parent_moving index) (view_of pass.old) name 0 0 result (view_of pass.new) }
{
    load_parent::<Brand>(world, pass, name)
}

/// Kind 37: store a box word.
pub(crate) struct StoreSide;

impl Kind for StoreSide {
    ghost use Rattle.core_state.specs.Moving as moving;
    ghost use Rattle.core_state.specs.Event.{of_moves, stores_side};

    ghost asks = { moving.MayStoreSide };

    ghost kind = { moving.store_side };

    ghost event = { λ before after steps. of_moves (stores_side steps) };
}

impl StillKind for StoreSide {
    ghost use Rattle.core_move.proofs.LocksStay.{store_side-still};

    ghost still = { store_side-still };
}

/// Kind 37, store a side of the box of a live body but the last one, under its stripe: of a body in the broad phase once
/// all bounds from its locations up to the roots are widened, of one that is out at once.
#[inline(always)]
pub fn step_37(world: &World, pass: &mut Pass, name: Name, value: u64)
    requires of { IsOf world.now pass.old }
    requires named { IsName world.now.map name }
    requires asks { MayStoreSide (view_of pass.old) name value 0 }
    ensures of { IsOf world.now pass.new }
    ensures step { Stored MayStoreSide store_side (view_of pass.old) name value (view_of pass.new) }
{
    pass.store::<StoreSide>(world, name, value);
}

/// Kind 38: store the last box word.
pub(crate) struct StoreLastSide;

impl Kind for StoreLastSide {
    ghost use Rattle.core_state.specs.Moving as moving;
    ghost use Rattle.core_state.specs.Event.{of_moves, stores_last_side};

    ghost asks = { moving.MayStoreLastSide };

    ghost kind = { moving.store_last_side };

    ghost event = { λ before after steps. of_moves (stores_last_side steps) };
}

impl StillKind for StoreLastSide {
    ghost use Rattle.std.proofs.Common.{refl};

    ghost still = { λ view name found first second. (refl, refl) };
}

/// Kind 38, store the last side of the box of a live body, under its stripe. Entry: the move to the box that its words
/// then say.
#[inline(always)]
pub fn step_38(world: &World, pass: &mut Pass, name: Name, value: u64)
    requires of { IsOf world.now pass.old }
    requires named { IsName world.now.map name }
    requires asks { MayStoreLastSide (view_of pass.old) name value 0 }
    ensures of { IsOf world.now pass.new }
    ensures step { Stored MayStoreLastSide store_last_side (view_of pass.old) name value (view_of pass.new) }
{
    pass.store::<StoreLastSide>(world, name, value);
}
