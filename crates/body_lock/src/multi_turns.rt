//! Locking several bodies by turns.
ghost use Rattle.std.specs.Prelude.{◌≡◌, ◌<◌, ◌≤◌, ℕ, suc, true, None, length, slice_index_or, All, ⊤};
ghost use Rattle.pass_table.specs.Trying.{mode_if};
ghost use Rattle.pass_table.specs.Turning.{IsUnderWay, AtMostOneStep, MadeBy};
ghost use Rattle.pass_table.specs.TakeTurns.{LoadedNone};
ghost use Rattle.pass_table.specs.Passes.{view_of, IsOf, IsIdle};
ghost use Rattle.body_lock.specs.declared.multi_op.Wanted.{Wanted};
ghost use Rattle.body_lock.specs.declared.multi_op.MultiStage.TheVariants.{Taking, Held};
ghost use Rattle.body_lock.specs.Stripes.{has_stripe, AreStripesOf, HoldsBelow};
ghost use Rattle.body_lock.specs.Answers.{wanted_ids, HasMultiLock};
ghost use Rattle.body_lock.specs.stages.LockingAll.{multi_left, takes_at, multi_takes, IsLockingAll, IsMultiTurn, ComesAfter, SaysEntry, MayLoadState, ReadsEntry};

use crate::multi_guard::{LockedBody, MOST, MultiEntry, MultiGuard};
use crate::multi_op::{LockMultiOp, MultiStage, Wanted};
use crate::stripe_set::StripeSet;
use arrayvec::ArrayVec;
use body_ident::BodyId;
use core_state::Mode;
use pass_table::{Label, Operation, Pass, TakeOp, Turn, World, step_15};
use scene_model::Made;
use std::mem;
use word_map::{Name, StateWord};

impl Operation for LockMultiOp {
    ghost use Rattle.body_lock.specs.stages.LockingAll.{locking_all-later};

    type Done = MultiGuard;

    ghost under_way = { IsLockingAll };

    ghost answers = { λ first start last next answer. HasMultiLock first start next answer };

    ghost left = { multi_left };

    ghost takes = { multi_takes };

    ghost reached = { λ operation. None };

    ghost last_label = { None };

    ghost refused = { λ answer. ⊥ };

    ghost says = { λ first start next label. ⊤ };

    ghost entry = { λ operation. None };

    fn turn(&mut self, world: &World, pass: &mut Pass) -> Turn<MultiGuard> {
        match self.stage {
            MultiStage::Taking { stripe, taking } => self.take(world, pass, stripe, taking),
            MultiStage::Held => self.load_state(world, pass),
        }
    }

    fn label(&self) -> Option<Label> {
        None
    }

    fn made(&self) -> Option<&Made> {
        None
    }

    ghost may_look = { locking_all-later };
}

/// How the bodies are locked.
fn mode_of(write: bool) -> Mode
    ensures { result ≡ mode_if write }
{
    if write { Mode::Write } else { Mode::Read }
}

/// The stripes of some bodies.
fn stripes_of(world: &World, ids: &[BodyId]) -> StripeSet
    ensures { AreStripesOf world.now.map ids.now result.bits }
{
    let mut set = StripeSet::none();
    for id in ids {
        set.insert(world.stripe_of(id.index()));
    }
    set
}

/// The bodies that are to be locked.
fn wanted_of(ids: &[BodyId]) -> ArrayVec<Wanted, MOST>
    requires { length ids.now ≤ 64 }
    ensures { wanted_ids result.items ≡ ids.now }
{
    let mut wanted = ArrayVec::new();
    for id in ids {
        wanted.push(Wanted { id: *id });
    }
    wanted
}

impl LockMultiOp {
    /// Begins to lock several bodies; no step is made yet.
    pub fn new(world: &World, pass: &mut Pass, ids: &[BodyId], write: bool) -> LockMultiOp
        requires idle { IsIdle world.now pass.old }
        requires some { 0 < length ids.now }
        requires few { length ids.now ≤ 64 }
        requires below { All (λ id. id.index < world.now.map.bodies) ids.now }
        ensures pass { pass.new ≡ pass.old }
        ensures mode { result.mode ≡ mode_if write }
        ensures ids { wanted_ids result.wanted.items ≡ ids.now }
        ensures under_way { IsLockingAll result (view_of pass.old) result (view_of pass.new) }
    {
        let mode = mode_of(write);
        let stripes = stripes_of(world, ids);
        let stage = match stripes.next(0) {
            Some(stripe) => MultiStage::Taking {
                stripe,
                taking: TakeOp::new(world, pass, stripe, mode),
            },
            None => unreachable!(),
        };
        LockMultiOp {
            wanted: wanted_of(ids),
            mode,
            stripes,
            stage,
            bodies: ArrayVec::new(),
        }
    }

    /// A turn of taking a stripe.
    fn take(
        &mut self,
        world: &World,
        pass: &mut Pass,
        stripe: u32,
        taking: TakeOp,
    ) -> Turn<MultiGuard>
        requires of { IsOf world.now pass.old }
        requires under_way { IsUnderWay IsLockingAll self.old (view_of pass.old) }
        requires stage { self.old.stage ≡ Taking stripe taking }
        ensures of { IsOf world.now pass.new }
        ensures turn { IsMultiTurn result self.old self.new (view_of pass.old) (view_of pass.new) }
    {
        let mut taking = taking;
        match taking.turn(world, pass) {
            Turn::Done(()) => {
                self.stage = self.stage_after(world, pass, stripe);
                Turn::More
            }
            Turn::More => {
                self.stage = MultiStage::Taking { stripe, taking };
                Turn::More
            }
            Turn::Again { lock, word } => {
                self.stage = MultiStage::Taking { stripe, taking };
                Turn::Again { lock, word }
            }
        }
    }

    /// What comes after a stripe was taken: the next one, or the state words.
    fn stage_after(&self, world: &World, pass: &mut Pass, stripe: u32) -> MultiStage
        requires of { IsOf world.now pass.old }
        requires low { stripe < 64 }
        requires within { (other : ℕ) → has_stripe self.now.stripes.bits other ≡ true → other < world.now.map.stripes }
        requires holds { HoldsBelow (view_of pass.old) self.now.stripes.bits self.now.mode (suc stripe) }
        ensures pass { pass.new ≡ pass.old }
        ensures stage { ComesAfter self.now.stripes.bits self.now.mode (suc stripe) (view_of pass.old) result }
        ensures unloaded { LoadedNone (takes_at result) }
    {
        match self.stripes.next(stripe + 1) {
            Some(next) => MultiStage::Taking {
                stripe: next,
                taking: TakeOp::new(world, pass, next, self.mode),
            },
            None => MultiStage::Held,
        }
    }

    /// A turn that loads the next state word. After the last one all is done.
    fn load_state(&mut self, world: &World, pass: &mut Pass) -> Turn<MultiGuard>
        requires of { IsOf world.now pass.old }
        requires under_way { IsUnderWay IsLockingAll self.old (view_of pass.old) }
        requires stage { self.old.stage ≡ Held }
        ensures of { IsOf world.now pass.new }
        ensures turn { IsMultiTurn result self.old self.new (view_of pass.old) (view_of pass.new) }
    {
        let body = self.read_entry(world, pass);
        self.bodies.push(body);
        if self.bodies.len() < self.wanted.len() {
            return Turn::More;
        }
        Turn::Done(MultiGuard {
            number: pass.number(),
            mode: self.mode,
            stripes: self.stripes,
            bodies: mem::replace(&mut self.bodies, ArrayVec::new()),
        })
    }

    /// The id of the next body that is looked at.
    fn next_id(&self) -> BodyId
        requires { length self.now.bodies.items < length self.now.wanted.items }
        ensures { (past : Wanted) → result ≡ (slice_index_or self.now.wanted.items (length self.now.bodies.items) past).id }
    {
        self.wanted.as_slice()[self.bodies.len()].id
    }

    /// Loads the state word of the next body.
    fn read_entry(&self, world: &World, pass: &mut Pass) -> LockedBody
        requires of { IsOf world.now pass.old }
        requires left { length self.now.bodies.items < length self.now.wanted.items }
        requires may { (past : Wanted) → MayLoadState (slice_index_or self.now.wanted.items (length self.now.bodies.items) past).id (view_of pass.old) }
        ensures of { IsOf world.now pass.new }
        ensures step { AtMostOneStep (view_of pass.old) (view_of pass.new) }
        ensures made { MadeBy (view_of pass.old) (view_of pass.new) None }
        ensures reads { (past : Wanted) → ReadsEntry (slice_index_or self.now.wanted.items (length self.now.bodies.items) past).id (view_of pass.old) (view_of pass.new) result }
    {
        let id = self.next_id();
        let state = step_15(world, pass, Name::State(id.index()));
        LockedBody {
            id,
            entry: entry_of(id, state),
        }
    }
}

/// What a state word says of the body of an id.
fn entry_of(id: BodyId, state: u64) -> MultiEntry
    ensures { SaysEntry id.seq state result }
{
    let live = StateWord::Live { sequence: id.seq() };
    if state == live.to_word() {
        MultiEntry::Reached
    } else {
        MultiEntry::Gone { state }
    }
}
