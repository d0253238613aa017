//! The guard of several bodies that are locked at once.
ghost use Rattle.std.specs.Prelude.{◌≡◌, ◌<◌, ℕ, true, [], ◌∷◌, length, slice_index_or, false};
ghost use Rattle.scene_model.specs.declared.entry.Entry.TheVariants.{SetUser};
ghost use Rattle.core_state.specs.declared.view.Mode.{Mode};
ghost use Rattle.core_state.specs.declared.view.Mode.TheVariants.{Write};
ghost use Rattle.core_state.specs.declared.view.Task.TheVariants.{Nothing};
ghost use Rattle.pass_table.specs.Calls.{Adds};
ghost use Rattle.pass_table.specs.Work.{Tells, HasDone, idle};
ghost use Rattle.pass_table.specs.Belongings.{belongings_of};
ghost use Rattle.pass_table.specs.Passes.{view_of, IsOf, IsIdle};
ghost use Rattle.body_lock.specs.declared.multi_guard.LockedBody.{LockedBody};
ghost use Rattle.body_lock.specs.declared.multi_guard.MultiEntry.TheVariants.{Reached};
ghost use Rattle.body_lock.specs.Stripes.{has_stripe, HoldsAll};
ghost use Rattle.body_lock.specs.Seeing.{HasSetUser};
ghost use Rattle.body_lock.specs.Multi.{IsMultiGood, SeesEntry};

use crate::gone::Gone;
use crate::stripe_set::StripeSet;
use crate::viewing::read_body;
use crate::words::store_user;
use arrayvec::ArrayVec;
use body_ident::BodyId;
use core_state::Mode;
use pass_table::{Pass, World, release};
use scene_model::BodyView;

/// The most bodies that are locked at once.
pub const MOST: usize = 64;

/// Whether a body was reached.
#[derive(Clone, Copy, Debug, PartialEq, Eq)]
pub enum MultiEntry {
    /// It is live.
    Reached,
    /// The id names no live body: its state word, read under the locks, was this.
    Gone { state: u64 },
}

/// One of several bodies.
#[derive(Clone, Copy)]
pub(crate) struct LockedBody {
    pub(crate) id: BodyId,
    pub(crate) entry: MultiEntry,
}

impl Default for LockedBody {
    fn default() -> LockedBody {
        LockedBody {
            id: BodyId::new(0, 0),
            entry: MultiEntry::Reached,
        }
    }
}

/// Several bodies are locked, by all their stripes.
///
/// It is good for the pass that locked them, and has to be unlocked.
#[must_use]
pub struct MultiGuard {
    pub(crate) number: u32,
    pub(crate) mode: Mode,
    pub(crate) stripes: StripeSet,
    pub(crate) bodies: ArrayVec<LockedBody, MOST>,
}

impl MultiGuard {
    /// The number of the pass that locked the bodies.
    pub fn pass_number(&self) -> u32
        ensures { result ≡ self.now.number }
    {
        self.number
    }

    /// How many bodies it was asked for.
    pub fn len(&self) -> usize
        ensures { result ≡ length self.now.bodies.items }
    {
        self.bodies.len()
    }

    /// The k-th body.
    fn body(&self, k: usize) -> LockedBody
        requires { k < length self.now.bodies.items }
        ensures { (past : LockedBody) → result ≡ slice_index_or self.now.bodies.items k past }
    {
        self.bodies.as_slice()[k]
    }

    /// What came of the k-th body.
    pub fn entry(&self, k: usize) -> MultiEntry
        requires { k < length self.now.bodies.items }
        ensures { (past : LockedBody) → result ≡ (slice_index_or self.now.bodies.items k past).entry }
    {
        self.body(k).entry
    }

    /// The k-th body as it is at a point of the call, as `BodyRead::view`. It is refused exactly where its entry is gone.
    pub fn view(&self, world: &World, pass: &mut Pass, k: usize) -> Result<BodyView, Gone>
        requires of { IsOf world.now pass.old }
        requires good { IsMultiGood self.now (view_of pass.old) }
        requires within { k < length self.now.bodies.items }
        ensures of { IsOf world.now pass.new }
        ensures good { IsMultiGood self.now (view_of pass.new) }
        ensures adds { Adds (view_of pass.old) (view_of pass.new) [] }
        ensures tells { Tells (view_of pass.old) (view_of pass.new) [] }
        ensures keeps { belongings_of (view_of pass.new) ≡ belongings_of (view_of pass.old) }
        ensures sees { (past : LockedBody) → SeesEntry (slice_index_or self.now.bodies.items k past) (view_of pass.old) (view_of pass.new) result }
    {
        let body = self.body(k);
        match body.entry {
            MultiEntry::Reached => Ok(read_body(world, pass, body.id)),
            MultiEntry::Gone { state } => Err(Gone { state }),
        }
    }

    /// Gives the k-th body, which was reached to write, another user number, in one step.
    pub fn set_user(&mut self, world: &World, pass: &mut Pass, k: usize, user: u32)
        requires of { IsOf world.now pass.old }
        requires good { IsMultiGood self.old (view_of pass.old) }
        requires write { self.old.mode ≡ Write }
        requires within { k < length self.old.bodies.items }
        requires reached { (past : LockedBody) → (slice_index_or self.old.bodies.items k past).entry ≡ Reached }
        ensures same { self.new ≡ self.old }
        ensures of { IsOf world.now pass.new }
        ensures good { IsMultiGood self.new (view_of pass.new) }
        ensures adds { (past : LockedBody) → Adds (view_of pass.old) (view_of pass.new) (SetUser (slice_index_or self.old.bodies.items k past).id.index user ∷ []) }
        ensures tells { Tells (view_of pass.old) (view_of pass.new) [] }
        ensures keeps { belongings_of (view_of pass.new) ≡ belongings_of (view_of pass.old) }
        ensures set { (past : LockedBody) → HasSetUser (view_of pass.old) (view_of pass.new) self.old.number (slice_index_or self.old.bodies.items k past).id.index user }
    {
        let body = self.body(k);
        store_user(world, pass, body.id, user);
    }

    /// Lets all bodies go.
    pub fn unlock(self, world: &World, pass: &mut Pass)
        requires of { IsOf world.now pass.old }
        requires good { IsMultiGood self (view_of pass.old) }
        ensures idle { IsIdle world.now pass.new }
        ensures adds { Adds (view_of pass.old) (view_of pass.new) [] }
        ensures tells { Tells (view_of pass.old) (view_of pass.new) [] }
        ensures keeps { belongings_of (view_of pass.new) ≡ belongings_of (view_of pass.old) }
    {
        let MultiGuard {
            number: _number,
            mode: _mode,
            stripes,
            bodies: _bodies,
        } = self;
        release_all(world, pass, stripes);
    }
}

/// Lets the stripes of a set go.
fn release_all(world: &World, pass: &mut Pass, stripes: StripeSet)
    requires of { IsOf world.now pass.old }
    requires holds { (mode : Mode) × HoldsAll (view_of pass.old) stripes.bits mode }
    requires within { (stripe : ℕ) → has_stripe stripes.bits stripe ≡ true → stripe < (view_of pass.old).config.stripes }
    requires done { (view_of pass.old).call.task ≡ Nothing }
    requires still { (view_of pass.old).walk.is_on ≡ false }
    ensures of { IsOf world.now pass.new }
    ensures done { HasDone (view_of pass.old) (view_of pass.new) (idle (view_of pass.old)) }
{
    let mut held = stripes;
    while let Some(stripe) = held.take_first() {
        release(world, pass, stripe);
    }
}
