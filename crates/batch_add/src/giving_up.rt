//! Giving a batch up, turn by turn: its bodies are unmarked, in order, each under its stripe; its slot is let go; and its
//! nodes are put into the pool again, under the pool's lock.
ghost use Rattle.std.specs.Prelude.{◌≡◌, ◌<◌, ◌≤◌, ℕ, List, length, None, ⊤};
ghost use Rattle.core_state.specs.declared.view.Batch.{Batch};
ghost use Rattle.core_state.specs.View.{HoldsNot};
ghost use Rattle.pass_table.specs.declared.turn.Turn.TheVariants.{More};
ghost use Rattle.pass_table.specs.Passes.{view_of, IsOf};
ghost use Rattle.pass_table.specs.Turning.{IsUnderWay};
ghost use Rattle.pass_table.specs.TakeTurns.{LoadedNone};
ghost use Rattle.batch_add.specs.declared.giving_up.GiveStage.TheVariants.{Striping, Striped, Cleared, Unmarked, Bare, Locking, Locked, Next, Headed, Linked, Given, Counted};
ghost use Rattle.batch_add.specs.stages.Keeping.{IsBegunFor};
ghost use Rattle.batch_add.specs.stages.GivingUp.{ComesNext, takes_at, give_takes, IsGivingUp, IsGiveTurn};

use crate::kept_batch::KeptBatch;
use core_state::Mode;
use pass_table::{Label, Operation, Pass, TakeOp, Turn, World};
use scene_model::Made;

/// How far it is.
#[derive(Clone, Copy)]
pub(crate) enum GiveStage {
    /// So many bodies are unmarked, and the stripe of the next one is being taken.
    Striping { done: u32, taking: TakeOp },
    /// It is held.
    Striped { done: u32 },
    /// The body has no location.
    Cleared { done: u32 },
    /// It is unmarked.
    Unmarked { done: u32 },
    /// No body is marked any more.
    Bare,
    /// The slot is let go, and the lock of the pool is being taken.
    Locking { taking: TakeOp },
    /// It is held.
    Locked,
    /// So many nodes were free before, and so many are given back; but not all.
    Next { free: u64, given: u32 },
    /// The head of the pool is this.
    Headed { free: u64, given: u32, head: u64 },
    /// It is the link of the next node.
    Linked { free: u64, given: u32 },
    /// All nodes are given back.
    Given { free: u64 },
    /// And they are counted.
    Counted,
}

/// Giving a batch up by turns.
#[derive(Drop)]
pub(crate) struct GivingUp {
    pub(crate) kept: KeptBatch,
    pub(crate) stage: GiveStage,
    /// The entry that the last turn made.
    pub(crate) made: Option<Made>,
}

impl Operation for GivingUp {
    ghost use Rattle.batch_add.specs.stages.GivingUp.{IsGivingUp, HasGiven, give_left, give_takes};
    ghost use Rattle.batch_add.specs.stages.GivingLater.{giving-later};

    type Done = ();

    ghost under_way = { IsGivingUp };

    ghost answers = { HasGiven };

    ghost left = { give_left };

    ghost takes = { give_takes };

    ghost reached = { λ operation. None };

    ghost last_label = { None };

    ghost refused = { λ answer. ⊥ };

    ghost says = { λ first start next label. ⊤ };

    ghost entry = { λ operation. operation.made };

    #[inline(always)]
    fn turn(&mut self, world: &World, pass: &mut Pass) -> Turn<()> {
        self.next_turn(world, pass)
    }

    fn label(&self) -> Option<Label> {
        None
    }

    fn made(&self) -> Option<&Made> {
        self.made.as_ref()
    }

    ghost may_look = { giving-later };
}

/// What comes when so many bodies of a batch are unmarked: the stripe of the next one is to be taken, or none is left.
fn stage_after(world: &World, pass: &mut Pass, kept: &KeptBatch, done: u32) -> GiveStage
    requires of { IsOf world.now pass.old }
    requires room { kept.now.marked ≤ length kept.now.indexes.items }
    requires most { done ≤ kept.now.marked }
    requires free { (lock : ℕ) → HoldsNot (view_of pass.old) lock }
    ensures pass { pass.new ≡ pass.old }
    ensures stage { ComesNext kept.now done (view_of pass.old) result }
    ensures unloaded { LoadedNone (takes_at result) }
{
    if done == kept.marked {
        return GiveStage::Bare;
    }
    let stripe = kept.stripe(world, done);
    GiveStage::Striping {
        done,
        taking: TakeOp::new(world, pass, stripe, Mode::Write),
    }
}

impl GivingUp {
    /// Begins to give a batch of the pass up; no step is made yet.
    pub(crate) fn new(world: &World, pass: &mut Pass, kept: KeptBatch) -> GivingUp
        requires of { IsOf world.now pass.old }
        requires begun { (before : List Batch) × (batch : Batch) × (after : List Batch) × IsBegunFor kept (view_of pass.old) before batch after }
        ensures pass { pass.new ≡ pass.old }
        ensures kept { result.kept ≡ kept }
        ensures unloaded { LoadedNone (give_takes result) }
        ensures made { result.made ≡ None }
        ensures under_way { IsGivingUp result (view_of pass.old) result (view_of pass.new) }
    {
        let stage = stage_after(world, pass, &kept, 0);
        GivingUp {
            kept,
            stage,
            made: None,
        }
    }

    /// The turn of the stage that it is at.
    #[inline(always)]
    fn next_turn(&mut self, world: &World, pass: &mut Pass) -> Turn<()>
        requires of { IsOf world.now pass.old }
        requires under_way { IsUnderWay IsGivingUp self.old (view_of pass.old) }
        ensures of { IsOf world.now pass.new }
        ensures turn { IsGiveTurn result self.old self.new (view_of pass.old) (view_of pass.new) }
    {
        match self.stage {
            GiveStage::Striping { done, taking } => self.take_stripe(world, pass, done, taking),
            GiveStage::Striped { done } => self.take_back(world, pass, done),
            GiveStage::Cleared { done } => self.unmark(world, pass, done),
            GiveStage::Unmarked { done } => self.leave_stripe(world, pass, done),
            GiveStage::Bare => self.let_slot_go(world, pass),
            GiveStage::Locking { taking } => self.take_pool(world, pass, taking),
            GiveStage::Locked => self.load_free(world, pass),
            GiveStage::Next { free, given } => self.load_head(world, pass, free, given),
            GiveStage::Headed { free, given, head } => {
                self.store_link(world, pass, free, given, head)
            }
            GiveStage::Linked { free, given } => self.put_in_front(world, pass, free, given),
            GiveStage::Given { free } => self.store_free(world, pass, free),
            GiveStage::Counted => self.leave_pool(world, pass),
        }
    }

    /// Goes on to a stage, after a turn that made no entry. What an earlier turn made is written over only where it is there.
    #[inline(always)]
    fn go_on(&mut self, stage: GiveStage) -> Turn<()>
        ensures more { result ≡ More }
        ensures stage { self.new ≡ record self.old { stage = stage; made = None } }
    {
        self.stage = stage;
        if self.made.is_some() {
            self.made = None;
        }
        Turn::More
    }

    /// A turn of taking the stripe of a body. Where it has no location there is none to be taken back.
    fn take_stripe(&mut self, world: &World, pass: &mut Pass, done: u32, taking: TakeOp) -> Turn<()>
        requires of { IsOf world.now pass.old }
        requires under_way { IsUnderWay IsGivingUp self.old (view_of pass.old) }
        requires stage { self.old.stage ≡ Striping done taking }
        ensures of { IsOf world.now pass.new }
        ensures turn { IsGiveTurn result self.old self.new (view_of pass.old) (view_of pass.new) }
    {
        let mut taking = taking;
        match taking.turn(world, pass) {
            Turn::Done(()) => {
                if self.kept.are_placed {
                    return self.go_on(GiveStage::Striped { done });
                }
                self.go_on(GiveStage::Cleared { done })
            }
            Turn::More => self.go_on(GiveStage::Striping { done, taking }),
            Turn::Again { lock, word } => {
                self.go_on(GiveStage::Striping { done, taking });
                Turn::Again { lock, word }
            }
        }
    }

    /// The turn that takes the location of a body back.
    fn take_back(&mut self, world: &World, pass: &mut Pass, done: u32) -> Turn<()>
        requires of { IsOf world.now pass.old }
        requires under_way { IsUnderWay IsGivingUp self.old (view_of pass.old) }
        requires stage { self.old.stage ≡ Striped done }
        ensures of { IsOf world.now pass.new }
        ensures turn { IsGiveTurn result self.old self.new (view_of pass.old) (view_of pass.new) }
    {
        self.kept.take_back(world, pass, done);
        self.go_on(GiveStage::Cleared { done })
    }

    /// The turn that unmarks a body.
    fn unmark(&mut self, world: &World, pass: &mut Pass, done: u32) -> Turn<()>
        requires of { IsOf world.now pass.old }
        requires under_way { IsUnderWay IsGivingUp self.old (view_of pass.old) }
        requires stage { self.old.stage ≡ Cleared done }
        ensures of { IsOf world.now pass.new }
        ensures turn { IsGiveTurn result self.old self.new (view_of pass.old) (view_of pass.new) }
    {
        let made = self.kept.unmark(world, pass, done);
        self.stage = GiveStage::Unmarked { done };
        self.made = Some(made);
        Turn::More
    }

    /// The turn that lets the stripe of a body go.
    fn leave_stripe(&mut self, world: &World, pass: &mut Pass, done: u32) -> Turn<()>
        requires of { IsOf world.now pass.old }
        requires under_way { IsUnderWay IsGivingUp self.old (view_of pass.old) }
        requires stage { self.old.stage ≡ Unmarked done }
        ensures of { IsOf world.now pass.new }
        ensures turn { IsGiveTurn result self.old self.new (view_of pass.old) (view_of pass.new) }
    {
        let _most = self.kept.marked;
        self.kept.leave_stripe(world, pass, done);
        let stage = stage_after(world, pass, &self.kept, done + 1);
        self.go_on(stage)
    }

    /// The turn that lets the slot go. Where the batch has no nodes it is the last one.
    fn let_slot_go(&mut self, world: &World, pass: &mut Pass) -> Turn<()>
        requires of { IsOf world.now pass.old }
        requires under_way { IsUnderWay IsGivingUp self.old (view_of pass.old) }
        requires stage { self.old.stage ≡ Bare }
        ensures of { IsOf world.now pass.new }
        ensures turn { IsGiveTurn result self.old self.new (view_of pass.old) (view_of pass.new) }
    {
        self.kept.let_slot_go(world, pass);
        if self.kept.node_count == 0 {
            self.made = None;
            return Turn::Done(());
        }
        let lock = world.pool_lock();
        let taking = TakeOp::new(world, pass, lock, Mode::Write);
        self.go_on(GiveStage::Locking { taking })
    }

    /// A turn of taking the lock of the pool.
    fn take_pool(&mut self, world: &World, pass: &mut Pass, taking: TakeOp) -> Turn<()>
        requires of { IsOf world.now pass.old }
        requires under_way { IsUnderWay IsGivingUp self.old (view_of pass.old) }
        requires stage { self.old.stage ≡ Locking taking }
        ensures of { IsOf world.now pass.new }
        ensures turn { IsGiveTurn result self.old self.new (view_of pass.old) (view_of pass.new) }
    {
        let mut taking = taking;
        match taking.turn(world, pass) {
            Turn::Done(()) => self.go_on(GiveStage::Locked),
            Turn::More => self.go_on(GiveStage::Locking { taking }),
            Turn::Again { lock, word } => {
                self.go_on(GiveStage::Locking { taking });
                Turn::Again { lock, word }
            }
        }
    }

    /// The turn that loads how many nodes are free.
    fn load_free(&mut self, world: &World, pass: &mut Pass) -> Turn<()>
        requires of { IsOf world.now pass.old }
        requires under_way { IsUnderWay IsGivingUp self.old (view_of pass.old) }
        requires stage { self.old.stage ≡ Locked }
        ensures of { IsOf world.now pass.new }
        ensures turn { IsGiveTurn result self.old self.new (view_of pass.old) (view_of pass.new) }
    {
        let free = self.kept.load_free(world, pass);
        self.go_on(GiveStage::Next { free, given: 0 })
    }

    /// A turn that loads the head of the pool.
    fn load_head(&mut self, world: &World, pass: &mut Pass, free: u64, given: u32) -> Turn<()>
        requires of { IsOf world.now pass.old }
        requires under_way { IsUnderWay IsGivingUp self.old (view_of pass.old) }
        requires stage { self.old.stage ≡ Next free given }
        ensures of { IsOf world.now pass.new }
        ensures turn { IsGiveTurn result self.old self.new (view_of pass.old) (view_of pass.new) }
    {
        let head = self.kept.load_head(world, pass);
        self.go_on(GiveStage::Headed { free, given, head })
    }

    /// A turn that stores the link of a node.
    fn store_link(
        &mut self,
        world: &World,
        pass: &mut Pass,
        free: u64,
        given: u32,
        head: u64,
    ) -> Turn<()>
        requires of { IsOf world.now pass.old }
        requires under_way { IsUnderWay IsGivingUp self.old (view_of pass.old) }
        requires stage { self.old.stage ≡ Headed free given head }
        ensures of { IsOf world.now pass.new }
        ensures turn { IsGiveTurn result self.old self.new (view_of pass.old) (view_of pass.new) }
    {
        self.kept.store_link(world, pass, given, head);
        self.go_on(GiveStage::Linked { free, given })
    }

    /// A turn that puts a node in front.
    fn put_in_front(&mut self, world: &World, pass: &mut Pass, free: u64, given: u32) -> Turn<()>
        requires of { IsOf world.now pass.old }
        requires under_way { IsUnderWay IsGivingUp self.old (view_of pass.old) }
        requires stage { self.old.stage ≡ Linked free given }
        ensures of { IsOf world.now pass.new }
        ensures turn { IsGiveTurn result self.old self.new (view_of pass.old) (view_of pass.new) }
    {
        self.kept.put_in_front(world, pass, given);
        let last = self.kept.node_count - 1;
        if given == last {
            return self.go_on(GiveStage::Given { free });
        }
        self.go_on(GiveStage::Next {
            free,
            given: given + 1,
        })
    }

    /// The turn that stores how many nodes are free then.
    fn store_free(&mut self, world: &World, pass: &mut Pass, free: u64) -> Turn<()>
        requires of { IsOf world.now pass.old }
        requires under_way { IsUnderWay IsGivingUp self.old (view_of pass.old) }
        requires stage { self.old.stage ≡ Given free }
        ensures of { IsOf world.now pass.new }
        ensures turn { IsGiveTurn result self.old self.new (view_of pass.old) (view_of pass.new) }
    {
        self.kept.store_free(world, pass, free);
        self.go_on(GiveStage::Counted)
    }

    /// The turn that lets the lock of the pool go.
    fn leave_pool(&mut self, world: &World, pass: &mut Pass) -> Turn<()>
        requires of { IsOf world.now pass.old }
        requires under_way { IsUnderWay IsGivingUp self.old (view_of pass.old) }
        requires stage { self.old.stage ≡ Counted }
        ensures of { IsOf world.now pass.new }
        ensures turn { IsGiveTurn result self.old self.new (view_of pass.old) (view_of pass.new) }
    {
        self.kept.leave_pool(world, pass);
        self.made = None;
        Turn::Done(())
    }
}
