//! The kinds of step on slots and on the bodies that a batch holds.
ghost use Rattle.std.specs.Prelude.{◌≢◌, MatchResult};
ghost use Rattle.word_map.specs.Names.{IsName};
ghost use Rattle.core_state.specs.Batches.{MayLoadSlot, load_slot, MayReserve, reserve, MayMark, mark, MayPlace, place_body, MayAttach, attach, MayTakeBack, take_back, MayUnmark, unmark, MayLetSlotGo, let_slot_go};
ghost use Rattle.pass_table.specs.Stepping.{Stepped, Stored};
ghost use Rattle.pass_table.specs.Passes.{view_of, IsOf};

use crate::kind::{Kind, StillKind};
use crate::pass::Pass;
use crate::world::World;
use word_map::Name;

/// Kind 17: load a slot.
pub(crate) struct LoadSlot;

impl Kind for LoadSlot {
    ghost use Rattle.core_state.specs.Batches as batches;
    ghost use Rattle.core_state.specs.Event.{of_batches, loads_slot};

    ghost asks = { batches.MayLoadSlot };

    ghost kind = { batches.load_slot };

    ghost event = { λ before after steps. of_batches (loads_slot steps) };
}

impl StillKind for LoadSlot {
    ghost use Rattle.std.proofs.Common.{refl};

    ghost still = { λ view name found first second. (refl, refl) };
}

/// Kind 17, load a slot.
#[inline(always)]
pub fn step_17(world: &World, pass: &mut Pass, name: Name) -> u64
    requires of { IsOf world.now pass.old }
    requires named { IsName world.now.map name }
    requires asks { MayLoadSlot (view_of pass.old) name 0 0 }
    ensures of { IsOf world.now pass.new }
    ensures step { Stepped MayLoadSlot load_slot (view_of pass.old) name 0 0 result (view_of pass.new) }
{
    pass.load::<LoadSlot>(world, name)
}

/// Kind 18: reserve a slot.
pub(crate) struct Reserve;

impl Kind for Reserve {
    ghost use Rattle.core_state.specs.Batches as batches;
    ghost use Rattle.core_state.specs.Event.{of_batches, reserves};

    ghost asks = { batches.MayReserve };

    ghost kind = { batches.reserve };

    ghost event = { λ before after steps. of_batches (reserves steps) };
}

impl StillKind for Reserve {
    ghost use Rattle.core_batch.proofs.LocksStay.{reserve-still};

    ghost still = { reserve-still };
}

/// Kind 18, reserve a slot: `old` is 0 and `new` 1 more than the own number. The error is the word that was found where
/// it was another than `old`; then nothing was stored.
#[inline(always)]
pub fn step_18(world: &World, pass: &mut Pass, name: Name, old: u64, new: u64) -> Result<(), u64>
    requires of { IsOf world.now pass.old }
    requires named { IsName world.now.map name }
    requires asks { MayReserve (view_of pass.old) name old new }
    ensures of { IsOf world.now pass.new }
    ensures step { MatchResult result (λ _. Stepped MayReserve reserve (view_of pass.old) name old new old (view_of pass.new)) (λ found. (found ≢ old) × Stepped MayReserve reserve (view_of pass.old) name old new found (view_of pass.new)) }
{
    pass.exchange::<Reserve>(world, name, old, new)
}

/// Kind 19: mark a body.
pub(crate) struct Mark;

impl Kind for Mark {
    ghost use Rattle.core_state.specs.Batches as batches;
    ghost use Rattle.core_state.specs.Event.{of_batches, marks};

    ghost asks = { batches.MayMark };

    ghost kind = { batches.mark };

    ghost event = { λ before after steps. of_batches (marks steps) };
}

impl StillKind for Mark {
    ghost use Rattle.core_batch.proofs.LocksStay.{mark-still};

    ghost still = { mark-still };
}

/// Kind 19, mark a live body that is out, under its stripe. Entry: the mark.
#[inline(always)]
pub fn step_19(world: &World, pass: &mut Pass, name: Name, value: u64)
    requires of { IsOf world.now pass.old }
    requires named { IsName world.now.map name }
    requires asks { MayMark (view_of pass.old) name value 0 }
    ensures of { IsOf world.now pass.new }
    ensures step { Stored MayMark mark (view_of pass.old) name value (view_of pass.new) }
{
    pass.store::<Mark>(world, name, value);
}

/// Kind 23: store a first location.
pub(crate) struct PlaceBody;

impl Kind for PlaceBody {
    ghost use Rattle.core_state.specs.Batches as batches;
    ghost use Rattle.core_state.specs.Event.{of_batches, places};

    ghost asks = { batches.MayPlace };

    ghost kind = { batches.place_body };

    ghost event = { λ before after steps. of_batches (places steps) };
}

impl StillKind for PlaceBody {
    ghost use Rattle.core_batch.proofs.LocksStay.{place-still};

    ghost still = { place-still };
}

/// Kind 23, store the first location of a body that a batch of the pass holds.
#[inline(always)]
pub fn step_23(world: &World, pass: &mut Pass, name: Name, value: u64)
    requires of { IsOf world.now pass.old }
    requires named { IsName world.now.map name }
    requires asks { MayPlace (view_of pass.old) name value 0 }
    ensures of { IsOf world.now pass.new }
    ensures step { Stored MayPlace place_body (view_of pass.old) name value (view_of pass.new) }
{
    pass.store::<PlaceBody>(world, name, value);
}

/// Kind 24: attach a batch.
pub(crate) struct Attach;

impl Kind for Attach {
    ghost use Rattle.core_state.specs.Batches as batches;
    ghost use Rattle.core_state.specs.Event.{of_batches, attaches};

    ghost asks = { batches.MayAttach };

    ghost kind = { batches.attach };

    ghost event = { λ before after steps. of_batches (attaches steps) };
}

impl StillKind for Attach {
    ghost use Rattle.core_batch.proofs.LocksStay.{attach-still};

    ghost still = { attach-still };
}

/// Kind 24, attach a batch: its whole tree is published, and all its bodies come into the broad phase. Entry: the join.
#[inline(always)]
pub fn step_24(world: &World, pass: &mut Pass, name: Name, value: u64)
    requires of { IsOf world.now pass.old }
    requires named { IsName world.now.map name }
    requires asks { MayAttach (view_of pass.old) name value 0 }
    ensures of { IsOf world.now pass.new }
    ensures step { Stored MayAttach attach (view_of pass.old) name value (view_of pass.new) }
{
    pass.store::<Attach>(world, name, value);
}

/// Kind 25: take a location back.
pub(crate) struct TakeBack;

impl Kind for TakeBack {
    ghost use Rattle.core_state.specs.Batches as batches;
    ghost use Rattle.core_state.specs.Event.{of_batches, takes_back};

    ghost asks = { batches.MayTakeBack };

    ghost kind = { batches.take_back };

    ghost event = { λ before after steps. of_batches (takes_back steps) };
}

impl StillKind for TakeBack {
    ghost use Rattle.core_batch.proofs.LocksStay.{take_back-still};

    ghost still = { take_back-still };
}

/// Kind 25, take the location of a held body back, under its stripe.
#[inline(always)]
pub fn step_25(world: &World, pass: &mut Pass, name: Name, value: u64)
    requires of { IsOf world.now pass.old }
    requires named { IsName world.now.map name }
    requires asks { MayTakeBack (view_of pass.old) name value 0 }
    ensures of { IsOf world.now pass.new }
    ensures step { Stored MayTakeBack take_back (view_of pass.old) name value (view_of pass.new) }
{
    pass.store::<TakeBack>(world, name, value);
}

/// Kind 26: unmark a body.
pub(crate) struct Unmark;

impl Kind for Unmark {
    ghost use Rattle.core_state.specs.Batches as batches;
    ghost use Rattle.core_state.specs.Event.{of_batches, unmarks};

    ghost asks = { batches.MayUnmark };

    ghost kind = { batches.unmark };

    ghost event = { λ before after steps. of_batches (unmarks steps) };
}

impl StillKind for Unmark {
    ghost use Rattle.core_batch.proofs.LocksStay.{unmark-still};

    ghost still = { unmark-still };
}

/// Kind 26, unmark a held body, under its stripe. Entry: the unmark.
#[inline(always)]
pub fn step_26(world: &World, pass: &mut Pass, name: Name, value: u64)
    requires of { IsOf world.now pass.old }
    requires named { IsName world.now.map name }
    requires asks { MayUnmark (view_of pass.old) name value 0 }
    ensures of { IsOf world.now pass.new }
    ensures step { Stored MayUnmark unmark (view_of pass.old) name value (view_of pass.new) }
{
    pass.store::<Unmark>(world, name, value);
}

/// Kind 27: let a slot go.
pub(crate) struct LetSlotGo;

impl Kind for LetSlotGo {
    ghost use Rattle.core_state.specs.Batches as batches;
    ghost use Rattle.core_state.specs.Event.{of_batches, lets_slot_go};

    ghost asks = { batches.MayLetSlotGo };

    ghost kind = { batches.let_slot_go };

    ghost event = { λ before after steps. of_batches (lets_slot_go steps) };
}

impl StillKind for LetSlotGo {
    ghost use Rattle.core_batch.proofs.LocksStay.{let_slot_go-still};

    ghost still = { let_slot_go-still };
}

/// Kind 27, let the slot of a batch go that holds no body; its nodes are then to be given back.
#[inline(always)]
pub fn step_27(world: &World, pass: &mut Pass, name: Name, value: u64)
    requires of { IsOf world.now pass.old }
    requires named { IsName world.now.map name }
    requires asks { MayLetSlotGo (view_of pass.old) name value 0 }
    ensures of { IsOf world.now pass.new }
    ensures step { Stored MayLetSlotGo let_slot_go (view_of pass.old) name value (view_of pass.new) }
{
    pass.store::<LetSlotGo>(world, name, value);
}
