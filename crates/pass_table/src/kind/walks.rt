//! The kinds of step of a walk through the trees. A walk is under way from `step_28` to `step_29`; what it loads in
//! between is noted in the view in order, and in the view alone, so no load costs more than its word. That the word is
//! the next one of a query is a fact of the query, and not asked here.
//!
//! Others may do anything beside a walk: it takes no lock and stores no word but the own reader word.
ghost use Rattle.std.specs.Prelude.{ℕ};
ghost use Rattle.word_map.specs.Names.{IsName};
ghost use Rattle.core_state.specs.Walks.{MayBegin, begin_walk, MayEnd, end_walk, MayWalkSlot, walk_slot, MayWalkMain, walk_main, MayWalkChild, walk_child, MayWalkBound, walk_bound};
ghost use Rattle.pass_table.specs.Stepping.{Stepped};
ghost use Rattle.pass_table.specs.Passes.{view_of, IsOf};

use crate::kind::{Kind, StillKind, TurningKind};
use crate::pass::Pass;
use crate::world::World;
use word_map::Name;

/// Kind 28: begin a walk.
pub(crate) struct BeginWalk;

impl Kind for BeginWalk {
    ghost use Rattle.core_state.specs.Walks as walks;
    ghost use Rattle.core_state.specs.Event.{of_walks, begins_walk};

    ghost asks = { walks.MayBegin };

    ghost kind = { walks.begin_walk };

    ghost event = { λ before after steps. of_walks (begins_walk steps) };
}

impl TurningKind for BeginWalk {
    ghost use Rattle.std.proofs.Common.{true, refl};

    ghost walks = { true };

    ghost turns = { λ view name found first second. (refl, refl) };
}

/// Kind 28, begin a walk: 1 is added to the own reader word, which is odd from then on. The pass may hold locks; it walks
/// not yet. It answers the word found. The walk has read nothing, and is to find what is there from this step on.
#[inline(always)]
pub fn step_28(world: &World, pass: &mut Pass, name: Name) -> u64
    requires of { IsOf world.now pass.old }
    requires named { IsName world.now.map name }
    requires asks { MayBegin (view_of pass.old) name 1 0 }
    ensures of { IsOf world.now pass.new }
    ensures step { Stepped MayBegin begin_walk (view_of pass.old) name 1 0 result (view_of pass.new) }
{
    pass.count_reader::<BeginWalk>(world, name, true)
}

/// Kind 29: end a walk.
pub(crate) struct EndWalk;

impl Kind for EndWalk {
    ghost use Rattle.core_state.specs.Walks as walks;
    ghost use Rattle.core_state.specs.Event.{of_walks, ends_walk};

    ghost asks = { walks.MayEnd };

    ghost kind = { walks.end_walk };

    ghost event = { λ before after steps. of_walks (ends_walk steps) };
}

impl TurningKind for EndWalk {
    ghost use Rattle.std.proofs.Common.{false, refl};

    ghost walks = { false };

    ghost turns = { λ view name found first second. (refl, refl) };
}

/// Kind 29, end a walk: 1 is added to the own reader word, which is even from then on. The pass walks. It answers the
/// word found. What the walk has read stays in the view until the next one begins.
#[inline(always)]
pub fn step_29(world: &World, pass: &mut Pass, name: Name) -> u64
    requires of { IsOf world.now pass.old }
    requires named { IsName world.now.map name }
    requires asks { MayEnd (view_of pass.old) name 1 0 }
    ensures of { IsOf world.now pass.new }
    ensures step { Stepped MayEnd end_walk (view_of pass.old) name 1 0 result (view_of pass.new) }
{
    pass.count_reader::<EndWalk>(world, name, false)
}

/// Kind 30: load a slot on a walk.
pub(crate) struct WalkSlot;

impl Kind for WalkSlot {
    ghost use Rattle.core_state.specs.Walks as walks;
    ghost use Rattle.core_state.specs.Event.{of_walks, walks_slot};

    ghost asks = { walks.MayWalkSlot };

    ghost kind = { walks.walk_slot };

    ghost event = { λ before after steps. of_walks (walks_slot steps) };
}

impl StillKind for WalkSlot {
    ghost use Rattle.std.proofs.Common.{refl};

    ghost still = { λ view name found first second. (refl, refl) };
}

/// Kind 30, load a slot on a walk.
#[inline(always)]
pub fn step_30(world: &World, pass: &mut Pass, name: Name) -> u64
    requires of { IsOf world.now pass.old }
    requires named { IsName world.now.map name }
    requires asks { MayWalkSlot (view_of pass.old) name 0 0 }
    ensures of { IsOf world.now pass.new }
    ensures step { Stepped MayWalkSlot walk_slot (view_of pass.old) name 0 0 result (view_of pass.new) }
{
    pass.load::<WalkSlot>(world, name)
}

/// Kind 31: load a main word on a walk.
pub(crate) struct WalkMain;

impl Kind for WalkMain {
    ghost use Rattle.core_state.specs.Walks as walks;
    ghost use Rattle.core_state.specs.Event.{of_walks, walks_main};

    ghost asks = { walks.MayWalkMain };

    ghost kind = { walks.walk_main };

    ghost event = { λ before after steps. of_walks (walks_main steps) };
}

impl StillKind for WalkMain {
    ghost use Rattle.std.proofs.Common.{refl};

    ghost still = { λ view name found first second. (refl, refl) };
}

/// Kind 31, load a main word on a walk.
#[inline(always)]
pub fn step_31(world: &World, pass: &mut Pass, name: Name) -> u64
    requires of { IsOf world.now pass.old }
    requires named { IsName world.now.map name }
    requires asks { MayWalkMain (view_of pass.old) name 0 0 }
    ensures of { IsOf world.now pass.new }
    ensures step { Stepped MayWalkMain walk_main (view_of pass.old) name 0 0 result (view_of pass.new) }
{
    pass.load::<WalkMain>(world, name)
}

/// Kind 32: load a child on a walk.
pub(crate) struct WalkChild;

impl Kind for WalkChild {
    ghost use Rattle.core_state.specs.Walks as walks;
    ghost use Rattle.core_state.specs.Event.{of_walks, walks_child};

    ghost asks = { walks.MayWalkChild };

    ghost kind = { walks.walk_child };

    ghost event = { λ before after steps. of_walks (walks_child steps) };
}

impl StillKind for WalkChild {
    ghost use Rattle.std.proofs.Common.{refl};

    ghost still = { λ view name found first second. (refl, refl) };
}

/// Kind 32, load a child on a walk.
#[inline(always)]
pub fn step_32(world: &World, pass: &mut Pass, name: Name) -> u64
    requires of { IsOf world.now pass.old }
    requires named { IsName world.now.map name }
    requires asks { MayWalkChild (view_of pass.old) name 0 0 }
    ensures of { IsOf world.now pass.new }
    ensures step { Stepped MayWalkChild walk_child (view_of pass.old) name 0 0 result (view_of pass.new) }
{
    pass.load::<WalkChild>(world, name)
}

/// Kind 33: load a side of a bound on a walk.
pub(crate) struct WalkBound;

impl Kind for WalkBound {
    ghost use Rattle.core_state.specs.Walks as walks;
    ghost use Rattle.core_state.specs.Event.{of_walks, walks_bound};

    ghost asks = { walks.MayWalkBound };

    ghost kind = { walks.walk_bound };

    ghost event = { λ before after steps. of_walks (walks_bound steps) };
}

impl StillKind for WalkBound {
    ghost use Rattle.std.proofs.Common.{refl};

    ghost still = { λ view name found first second. (refl, refl) };
}

/// Kind 33, load a side of the bound of a child on a walk. With the first side the view notes how the bound then stood.
#[inline(always)]
pub fn step_33(world: &World, pass: &mut Pass, name: Name) -> u64
    requires of { IsOf world.now pass.old }
    requires named { IsName world.now.map name }
    requires asks { MayWalkBound (view_of pass.old) name 0 0 }
    ensures of { IsOf world.now pass.new }
    ensures step { Stepped MayWalkBound walk_bound (view_of pass.old) name 0 0 result (view_of pass.new) }
{
    pass.load::<WalkBound>(world, name)
}
