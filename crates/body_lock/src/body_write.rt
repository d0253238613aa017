//! The guard of a body that is locked to write.
ghost use Rattle.std.specs.Prelude.{◌≡◌, [], ◌∷◌};
ghost use Rattle.scene_model.specs.declared.entry.Entry.TheVariants.{SetUser};
ghost use Rattle.pass_table.specs.Knowing.{KnowsMore};
ghost use Rattle.pass_table.specs.Calls.{Adds, AtPoint};
ghost use Rattle.pass_table.specs.Work.{Tells};
ghost use Rattle.pass_table.specs.Belongings.{belongings_of};
ghost use Rattle.pass_table.specs.Passes.{view_of, IsOf, IsIdle};
ghost use Rattle.body_lock.specs.Guarding.{IsWriting};
ghost use Rattle.pass_table.specs.Bodies.{IsCurrent};
ghost use Rattle.body_lock.specs.Staying.{BodyStays};
ghost use Rattle.body_lock.specs.Seeing.{IsSeenAt, HasSetUser};

use crate::viewing::read_body;
use crate::words::{store_user, unlock};
use body_ident::BodyId;
use pass_table::{Pass, World};
use scene_model::BodyView;

/// A body is locked to write: no other pass holds it or changes it until it is unlocked, but that a batch which holds it may bring it
/// into the broad phase.
///
/// It is good for the pass that locked the body, and has to be unlocked.
#[must_use]
pub struct BodyWrite {
    pub(crate) number: u32,
    pub(crate) id: BodyId,
}

impl BodyWrite {
    /// The number of the pass that locked the body.
    pub fn pass_number(&self) -> u32
        ensures { result ≡ self.now.number }
    {
        self.number
    }

    /// The id of the body.
    pub fn id(&self) -> BodyId
        ensures { result ≡ self.now.id }
    {
        self.id
    }

    /// The body as it is at a point of the call. Another view shows the same but for the phase, where it was held.
    pub fn view(&self, world: &World, pass: &mut Pass) -> BodyView
        requires of { IsOf world.now pass.old }
        requires good { IsWriting self.now (view_of pass.old) }
        ensures of { IsOf world.now pass.new }
        ensures good { IsWriting self.now (view_of pass.new) }
        ensures now { IsCurrent (view_of pass.new) }
        ensures more { KnowsMore (view_of pass.old) (view_of pass.new) }
        ensures stays { BodyStays self.now.id.index (view_of pass.old) (view_of pass.new) }
        ensures adds { Adds (view_of pass.old) (view_of pass.new) [] }
        ensures tells { Tells (view_of pass.old) (view_of pass.new) [] }
        ensures keeps { belongings_of (view_of pass.new) ≡ belongings_of (view_of pass.old) }
        ensures seen { AtPoint (view_of pass.old) (view_of pass.new) (IsSeenAt (view_of pass.old).config (view_of pass.old).known self.now.id result) }
    {
        read_body(world, pass, self.id)
    }

    /// Gives the body another user number, in one step.
    pub fn set_user(&mut self, world: &World, pass: &mut Pass, user: u32)
        requires of { IsOf world.now pass.old }
        requires good { IsWriting self.old (view_of pass.old) }
        ensures same { self.new ≡ self.old }
        ensures of { IsOf world.now pass.new }
        ensures good { IsWriting self.new (view_of pass.new) }
        ensures adds { Adds (view_of pass.old) (view_of pass.new) (SetUser self.old.id.index user ∷ []) }
        ensures tells { Tells (view_of pass.old) (view_of pass.new) [] }
        ensures keeps { belongings_of (view_of pass.new) ≡ belongings_of (view_of pass.old) }
        ensures set { HasSetUser (view_of pass.old) (view_of pass.new) self.old.number self.old.id.index user }
    {
        store_user(world, pass, self.id, user);
    }

    /// Lets the body go, in one step.
    pub fn unlock(self, world: &World, pass: &mut Pass)
        requires of { IsOf world.now pass.old }
        requires good { IsWriting self (view_of pass.old) }
        ensures idle { IsIdle world.now pass.new }
        ensures adds { Adds (view_of pass.old) (view_of pass.new) [] }
        ensures tells { Tells (view_of pass.old) (view_of pass.new) [] }
        ensures keeps { belongings_of (view_of pass.new) ≡ belongings_of (view_of pass.old) }
    {
        let BodyWrite {
            number: _number,
            id,
        } = self;
        unlock(world, pass, id);
    }
}
