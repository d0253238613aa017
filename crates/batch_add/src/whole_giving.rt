//! Giving a batch up at once: the steps that the turns make, in the same order, in a loop over bodies and one over nodes.
ghost use Rattle.std.specs.Prelude.{ℕ, ◌+◌, ◌<◌, List};
ghost use Rattle.core_state.specs.declared.view.Batch.{Batch};
ghost use Rattle.pass_table.specs.Passes.{view_of, IsOf};
ghost use Rattle.batch_add.specs.declared.giving_up.GiveStage.TheVariants.{Striped, Cleared, Bare, Locked};
ghost use Rattle.batch_add.specs.Parts.{HasGivenUp};
ghost use Rattle.batch_add.specs.stages.Keeping.{IsBegunFor};
ghost use Rattle.batch_add.specs.stages.GiveSteps.{AtStage, HasUnmarked, HasLetSlotGo, HasPut, IsGivenUp, IsSoFar, Leads};

use crate::kept_batch::KeptBatch;
use pass_table::{Pass, World, take_write};
use std::sync::Wait;

impl KeptBatch {
    /// Gives the batch up, which is the pass's. It may wait for locks.
    pub(crate) fn give_up<R: Wait>(&self, rt: &R, world: &World, pass: &mut Pass)
        requires of { IsOf world.now pass.old }
        requires begun { (before : List Batch) × (batch : Batch) × (after : List Batch) × IsBegunFor self.now (view_of pass.old) before batch after }
        ensures of { IsOf world.now pass.new }
        ensures given_up { (before : List Batch) (batch : Batch) (after : List Batch) → IsBegunFor self.now (view_of pass.old) before batch after → HasGivenUp before batch after (view_of pass.old) (view_of pass.new) }
    {
        self.unmark_all(rt, world, pass);
        self.let_slot_go(world, pass);
        self.give_nodes(rt, world, pass);
    }

    // ---- bodies

    /// Unmarks all bodies.
    fn unmark_all<R: Wait>(&self, rt: &R, world: &World, pass: &mut Pass)
        requires of { IsOf world.now pass.old }
        requires so_far { IsSoFar self.now (HasUnmarked 0) (view_of pass.old) }
        ensures of { IsOf world.now pass.new }
        ensures leads { Leads self.now (HasUnmarked 0) (view_of pass.old) (AtStage Bare) (view_of pass.new) }
    {
        for done in 0..self.marked {
            self.unmark_next(rt, world, pass, done);
        }
    }

    /// Unmarks the next body, under its stripe.
    fn unmark_next<R: Wait>(&self, rt: &R, world: &World, pass: &mut Pass, done: u32)
        requires of { IsOf world.now pass.old }
        requires below { done < self.now.marked }
        requires so_far { IsSoFar self.now (HasUnmarked done) (view_of pass.old) }
        ensures of { IsOf world.now pass.new }
        ensures leads { Leads self.now (HasUnmarked done) (view_of pass.old) (HasUnmarked (done + 1)) (view_of pass.new) }
    {
        self.take_stripe(rt, world, pass, done);
        self.clear(world, pass, done);
        self.unmark(world, pass, done);
        self.leave_stripe(world, pass, done);
    }

    /// Takes the stripe of the next body.
    fn take_stripe<R: Wait>(&self, rt: &R, world: &World, pass: &mut Pass, done: u32)
        requires of { IsOf world.now pass.old }
        requires below { done < self.now.marked }
        requires so_far { IsSoFar self.now (HasUnmarked done) (view_of pass.old) }
        ensures of { IsOf world.now pass.new }
        ensures leads { Leads self.now (HasUnmarked done) (view_of pass.old) (AtStage (Striped done)) (view_of pass.new) }
    {
        let stripe = self.stripe(world, done);
        take_write(rt, world, pass, stripe);
    }

    /// Takes the location of a body back, where it has one.
    fn clear(&self, world: &World, pass: &mut Pass, done: u32)
        requires of { IsOf world.now pass.old }
        requires so_far { IsSoFar self.now (AtStage (Striped done)) (view_of pass.old) }
        ensures of { IsOf world.now pass.new }
        ensures leads { Leads self.now (AtStage (Striped done)) (view_of pass.old) (AtStage (Cleared done)) (view_of pass.new) }
    {
        if !self.are_placed {
            return;
        }
        self.take_back(world, pass, done);
    }

    // ---- nodes

    /// Gives all nodes back, where the batch has some.
    fn give_nodes<R: Wait>(&self, rt: &R, world: &World, pass: &mut Pass)
        requires of { IsOf world.now pass.old }
        requires so_far { IsSoFar self.now HasLetSlotGo (view_of pass.old) }
        ensures of { IsOf world.now pass.new }
        ensures leads { Leads self.now HasLetSlotGo (view_of pass.old) IsGivenUp (view_of pass.new) }
    {
        if self.node_count == 0 {
            return;
        }
        self.take_pool(rt, world, pass);
        let free = self.load_free(world, pass);
        self.put_all(world, pass);
        self.store_free(world, pass, free);
        self.leave_pool(world, pass);
    }

    /// Takes the lock of the pool.
    fn take_pool<R: Wait>(&self, rt: &R, world: &World, pass: &mut Pass)
        requires of { IsOf world.now pass.old }
        requires some { 0 < self.now.node_count }
        requires so_far { IsSoFar self.now HasLetSlotGo (view_of pass.old) }
        ensures of { IsOf world.now pass.new }
        ensures leads { Leads self.now HasLetSlotGo (view_of pass.old) (AtStage Locked) (view_of pass.new) }
    {
        take_write(rt, world, pass, world.pool_lock());
    }

    /// Puts all nodes in front of the pool.
    fn put_all(&self, world: &World, pass: &mut Pass)
        requires of { IsOf world.now pass.old }
        requires so_far { (free : ℕ) × IsSoFar self.now (HasPut free 0) (view_of pass.old) }
        ensures of { IsOf world.now pass.new }
        ensures leads { (free : ℕ) → Leads self.now (HasPut free 0) (view_of pass.old) (HasPut free self.now.node_count) (view_of pass.new) }
    {
        for given in 0..self.node_count {
            self.put_next(world, pass, given);
        }
    }

    /// Puts the next node in front of the pool.
    fn put_next(&self, world: &World, pass: &mut Pass, given: u32)
        requires of { IsOf world.now pass.old }
        requires below { given < self.now.node_count }
        requires so_far { (free : ℕ) × IsSoFar self.now (HasPut free given) (view_of pass.old) }
        ensures of { IsOf world.now pass.new }
        ensures leads { (free : ℕ) → Leads self.now (HasPut free given) (view_of pass.old) (HasPut free (given + 1)) (view_of pass.new) }
    {
        let head = self.load_head(world, pass);
        self.store_link(world, pass, given, head);
        self.put_in_front(world, pass, given);
    }
}
