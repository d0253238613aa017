//! The kinds of step on the words of bodies.
ghost use Rattle.word_map.specs.Names.{IsName};
ghost use Rattle.core_state.specs.Lives.{MayStoreField, store_field, MayCreate, create, MayDestroy, destroy, MayLoadBody, load_body, MaySetUser, set_user};
ghost use Rattle.pass_table.specs.Stepping.{Stepped, Stored};
ghost use Rattle.pass_table.specs.Passes.{view_of, IsOf};

use crate::kind::{Kind, StillKind};
use crate::pass::Pass;
use crate::world::World;
use word_map::Name;

/// Kind 12: store what a body is to be.
pub(crate) struct StoreField;

impl Kind for StoreField {
    ghost use Rattle.core_state.specs.Lives as lives;
    ghost use Rattle.core_state.specs.Event.{of_bodies, stores_field};

    ghost asks = { lives.MayStoreField };

    ghost kind = { lives.store_field };

    ghost event = { λ before after steps. of_bodies (stores_field steps) };
}

impl StillKind for StoreField {
    ghost use Rattle.std.proofs.Common.{refl};

    ghost still = { λ view name found first second. (refl, refl) };
}

/// Kind 12, store a layer, a user number or a side of the box of a body that is to be created.
#[inline(always)]
pub fn step_12(world: &World, pass: &mut Pass, name: Name, value: u64)
    requires of { IsOf world.now pass.old }
    requires named { IsName world.now.map name }
    requires asks { MayStoreField (view_of pass.old) name value 0 }
    ensures of { IsOf world.now pass.new }
    ensures step { Stored MayStoreField store_field (view_of pass.old) name value (view_of pass.new) }
{
    pass.store::<StoreField>(world, name, value);
}

/// Kind 13: create a body.
pub(crate) struct Create;

impl Kind for Create {
    ghost use Rattle.core_state.specs.Lives as lives;
    ghost use Rattle.core_state.specs.Event.{of_bodies, creates};

    ghost asks = { lives.MayCreate };

    ghost kind = { lives.create };

    ghost event = { λ before after steps. of_bodies (creates steps) };
}

impl StillKind for Create {
    ghost use Rattle.std.proofs.Common.{refl};

    ghost still = { λ view name found first second. (refl, refl) };
}

/// Kind 13, create: the state word of an index that was taken off the list says that a body is live there. Entry: the
/// creation of the body that its words say.
#[inline(always)]
pub fn step_13(world: &World, pass: &mut Pass, name: Name, value: u64)
    requires of { IsOf world.now pass.old }
    requires named { IsName world.now.map name }
    requires asks { MayCreate (view_of pass.old) name value 0 }
    ensures of { IsOf world.now pass.new }
    ensures step { Stored MayCreate create (view_of pass.old) name value (view_of pass.new) }
{
    pass.store::<Create>(world, name, value);
}

/// Kind 14: destroy a body.
pub(crate) struct Destroy;

impl Kind for Destroy {
    ghost use Rattle.core_state.specs.Lives as lives;
    ghost use Rattle.core_state.specs.Event.{of_bodies, destroys};

    ghost asks = { lives.MayDestroy };

    ghost kind = { lives.destroy };

    ghost event = { λ before after steps. of_bodies (destroys steps) };
}

impl StillKind for Destroy {
    ghost use Rattle.std.proofs.Common.{refl};

    ghost still = { λ view name found first second. (refl, refl) };
}

/// Kind 14, destroy: the state word of an index that was put on the list says that no body is live there. Entry: the
/// destruction.
#[inline(always)]
pub fn step_14(world: &World, pass: &mut Pass, name: Name, value: u64)
    requires of { IsOf world.now pass.old }
    requires named { IsName world.now.map name }
    requires asks { MayDestroy (view_of pass.old) name value 0 }
    ensures of { IsOf world.now pass.new }
    ensures step { Stored MayDestroy destroy (view_of pass.old) name value (view_of pass.new) }
{
    pass.store::<Destroy>(world, name, value);
}

/// Kind 15: load a word of a body.
pub(crate) struct LoadBody;

impl Kind for LoadBody {
    ghost use Rattle.core_state.specs.Lives as lives;
    ghost use Rattle.core_state.specs.Event.{of_bodies, loads_body};

    ghost asks = { lives.MayLoadBody };

    ghost kind = { lives.load_body };

    ghost event = { λ before after steps. of_bodies (loads_body steps) };
}

impl StillKind for LoadBody {
    ghost use Rattle.std.proofs.Common.{refl};

    ghost still = { λ view name found first second. (refl, refl) };
}

/// Kind 15, load a word of a body under its stripe, or its state under the lock of the list.
#[inline(always)]
pub fn step_15(world: &World, pass: &mut Pass, name: Name) -> u64
    requires of { IsOf world.now pass.old }
    requires named { IsName world.now.map name }
    requires asks { MayLoadBody (view_of pass.old) name 0 0 }
    ensures of { IsOf world.now pass.new }
    ensures step { Stepped MayLoadBody load_body (view_of pass.old) name 0 0 result (view_of pass.new) }
{
    pass.load::<LoadBody>(world, name)
}

/// Kind 16: set the user number of a body.
pub(crate) struct SetUser;

impl Kind for SetUser {
    ghost use Rattle.core_state.specs.Lives as lives;
    ghost use Rattle.core_state.specs.Event.{of_bodies, sets_user};

    ghost asks = { lives.MaySetUser };

    ghost kind = { lives.set_user };

    ghost event = { λ before after steps. of_bodies (sets_user steps) };
}

impl StillKind for SetUser {
    ghost use Rattle.std.proofs.Common.{refl};

    ghost still = { λ view name found first second. (refl, refl) };
}

/// Kind 16, set the user number of a live body under its stripe. Entry: the new number.
#[inline(always)]
pub fn step_16(world: &World, pass: &mut Pass, name: Name, value: u64)
    requires of { IsOf world.now pass.old }
    requires named { IsName world.now.map name }
    requires asks { MaySetUser (view_of pass.old) name value 0 }
    ensures of { IsOf world.now pass.new }
    ensures step { Stored MaySetUser set_user (view_of pass.old) name value (view_of pass.new) }
{
    pass.store::<SetUser>(world, name, value);
}
