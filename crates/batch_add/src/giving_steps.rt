//! The steps of giving a batch up, one function for each. Its turns make them one by one, and a call all of them in loops.
ghost use Rattle.std.specs.Prelude.{ℕ, ◌+◌, Some, None};
ghost use Rattle.pass_table.specs.Passes.{view_of, IsOf};
ghost use Rattle.batch_add.specs.declared.giving_up.GiveStage.TheVariants.{Striped, Cleared, Unmarked, Bare, Locked, Next, Headed, Linked, Given, Counted};
ghost use Rattle.batch_add.specs.stages.Keeping.{index_at};
ghost use Rattle.batch_add.specs.stages.GiveSteps.{AtStage, HasUnmarked, HasLetSlotGo, HasPut, IsGivenUp, IsSoFar, IsGiveStep};

use crate::kept_batch::KeptBatch;
use free_list::{load_count, load_pool_head, put_node_in_front, store_count, store_pool_link};
use pass_table::{Pass, World, release, step_25, step_26, step_27};
use scene_model::{Entry, Made};
use word_map::Name;

impl KeptBatch {
    // ---- bodies

    /// Takes the location of a body back.
    #[inline(always)]
    pub(crate) fn take_back(&self, world: &World, pass: &mut Pass, done: u32)
        requires of { IsOf world.now pass.old }
        requires so_far { IsSoFar self.now (AtStage (Striped done)) (view_of pass.old) }
        ensures of { IsOf world.now pass.new }
        ensures step { IsGiveStep self.now (AtStage (Striped done)) (AtStage (Cleared done)) None (view_of pass.old) (view_of pass.new) }
    {
        let index = self.index(done);
        step_25(world, pass, Name::LocA(index), 0);
    }

    /// Unmarks a body, which has no location. It answers the entry that it made.
    #[inline(always)]
    pub(crate) fn unmark(&self, world: &World, pass: &mut Pass, done: u32) -> Made
        requires of { IsOf world.now pass.old }
        requires so_far { IsSoFar self.now (AtStage (Cleared done)) (view_of pass.old) }
        ensures of { IsOf world.now pass.new }
        ensures step { IsGiveStep self.now (AtStage (Cleared done)) (AtStage (Unmarked done)) (Some result) (view_of pass.old) (view_of pass.new) }
    {
        let index = self.index(done);
        step_26(world, pass, Name::Phase(index), 0);
        Made {
            pass: pass.number(),
            entry: Entry::Unmark { index },
        }
    }

    /// Lets the stripe of a body go.
    #[inline(always)]
    pub(crate) fn leave_stripe(&self, world: &World, pass: &mut Pass, done: u32)
        requires of { IsOf world.now pass.old }
        requires so_far { IsSoFar self.now (AtStage (Unmarked done)) (view_of pass.old) }
        ensures of { IsOf world.now pass.new }
        ensures step { IsGiveStep self.now (AtStage (Unmarked done)) (HasUnmarked (done + 1)) None (view_of pass.old) (view_of pass.new) }
    {
        release(world, pass, self.stripe(world, done));
    }

    /// Lets the slot go, when no body is marked any more.
    #[inline(always)]
    pub(crate) fn let_slot_go(&self, world: &World, pass: &mut Pass)
        requires of { IsOf world.now pass.old }
        requires so_far { IsSoFar self.now (AtStage Bare) (view_of pass.old) }
        ensures of { IsOf world.now pass.new }
        ensures step { IsGiveStep self.now (AtStage Bare) HasLetSlotGo None (view_of pass.old) (view_of pass.new) }
    {
        step_27(world, pass, Name::Slot(self.layer, self.slot), 0);
    }

    // ---- nodes, under the lock of the pool

    /// Loads how many nodes are free.
    #[inline(always)]
    pub(crate) fn load_free(&self, world: &World, pass: &mut Pass) -> u64
        requires of { IsOf world.now pass.old }
        requires so_far { IsSoFar self.now (AtStage Locked) (view_of pass.old) }
        ensures of { IsOf world.now pass.new }
        ensures step { IsGiveStep self.now (AtStage Locked) (HasPut result 0) None (view_of pass.old) (view_of pass.new) }
    {
        load_count(world, pass)
    }

    /// Loads the head of the pool.
    #[inline(always)]
    pub(crate) fn load_head(&self, world: &World, pass: &mut Pass) -> u64
        requires of { IsOf world.now pass.old }
        requires so_far { (free : ℕ) × (given : ℕ) × IsSoFar self.now (AtStage (Next free given)) (view_of pass.old) }
        ensures of { IsOf world.now pass.new }
        ensures step { (free given : ℕ) → IsGiveStep self.now (AtStage (Next free given)) (AtStage (Headed free given result)) None (view_of pass.old) (view_of pass.new) }
    {
        load_pool_head(world, pass)
    }

    /// Stores the link of a node: it becomes the head of the pool.
    #[inline(always)]
    pub(crate) fn store_link(&self, world: &World, pass: &mut Pass, given: u32, head: u64)
        requires of { IsOf world.now pass.old }
        requires so_far { (free : ℕ) × IsSoFar self.now (AtStage (Headed free given head)) (view_of pass.old) }
        ensures of { IsOf world.now pass.new }
        ensures step { (free : ℕ) → IsGiveStep self.now (AtStage (Headed free given head)) (AtStage (Linked free given)) None (view_of pass.old) (view_of pass.new) }
    {
        store_pool_link(world, pass, self.node(given), head);
    }

    /// Puts a node in front, whose link is the head.
    #[inline(always)]
    pub(crate) fn put_in_front(&self, world: &World, pass: &mut Pass, given: u32)
        requires of { IsOf world.now pass.old }
        requires so_far { (free : ℕ) × IsSoFar self.now (AtStage (Linked free given)) (view_of pass.old) }
        ensures of { IsOf world.now pass.new }
        ensures step { (free : ℕ) → IsGiveStep self.now (AtStage (Linked free given)) (HasPut free (given + 1)) None (view_of pass.old) (view_of pass.new) }
    {
        put_node_in_front(world, pass, self.node(given));
    }

    /// Stores how many nodes are free, when all are given back.
    #[inline(always)]
    pub(crate) fn store_free(&self, world: &World, pass: &mut Pass, free: u64)
        requires of { IsOf world.now pass.old }
        requires so_far { IsSoFar self.now (AtStage (Given free)) (view_of pass.old) }
        ensures of { IsOf world.now pass.new }
        ensures step { IsGiveStep self.now (AtStage (Given free)) (AtStage Counted) None (view_of pass.old) (view_of pass.new) }
    {
        store_count(world, pass, free + u64::from(self.node_count));
    }

    /// Lets the lock of the pool go.
    #[inline(always)]
    pub(crate) fn leave_pool(&self, world: &World, pass: &mut Pass)
        requires of { IsOf world.now pass.old }
        requires so_far { IsSoFar self.now (AtStage Counted) (view_of pass.old) }
        ensures of { IsOf world.now pass.new }
        ensures step { IsGiveStep self.now (AtStage Counted) IsGivenUp None (view_of pass.old) (view_of pass.new) }
    {
        release(world, pass, world.pool_lock());
    }
}
