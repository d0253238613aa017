//! Taking nodes of the pool for the newest batch.
ghost use Rattle.std.specs.Prelude.{◌≡◌, ◌≢◌, ◌<◌, ◌^◌, ◌==◌, if◌then◌else◌, suc, length, [], None, slice_set, ⊤};
ghost use Rattle.pass_table.specs.declared.turn.Turn.TheVariants.{More};
ghost use Rattle.pass_table.specs.Holding.{IsAtRest};
ghost use Rattle.pass_table.specs.Passes.{view_of, IsOf};
ghost use Rattle.pass_table.specs.Turning.{IsUnderWay};
ghost use Rattle.pass_table.specs.TakeTurns.{LoadedNone};
ghost use Rattle.batch_add.specs.declared.node_taking.NodeStage.TheVariants.{Locking, Locked, Next, First, Linked, Taken, Leaving};
ghost use Rattle.batch_add.specs.stages.TakingNodes.{IsTakingNodes, HasNotedNode, nodes_takes, IsNodesTurn};

use core_state::Mode;
use free_list::{load_count, load_pool_head, load_pool_link, store_count, take_node_off};
use pass_table::{Label, Operation, Pass, TakeOp, Turn, World, release};
use scene_model::Made;

/// How far the taking of nodes is.
#[derive(Clone, Copy)]
pub(crate) enum NodeStage {
    /// The lock of the pool is being taken.
    Locking { taking: TakeOp },
    /// It is held.
    Locked,
    /// Enough nodes are free, and not all are taken yet.
    Next,
    /// The head of the pool names this node.
    First { node: u32 },
    /// Its link is this.
    Linked { node: u32, link: u64 },
    /// All nodes are taken.
    Taken,
    /// It answers this, once the lock is let go.
    Leaving { answer: Result<(), u32> },
}

/// Taking so many nodes of the pool for the newest batch, under the pool's lock.
///
/// The nodes are then in `nodes`. Where fewer are free it takes none, and answers how many there were.
#[derive(Drop)]
pub(crate) struct NodeTaking {
    /// How many nodes are wanted.
    pub(crate) count: u32,
    /// How many of them are taken.
    pub(crate) taken: u32,
    /// How many nodes were free when the lock was taken.
    pub(crate) free: u64,
    pub(crate) stage: NodeStage,
    /// The nodes that are taken, and room for the others; as long as nodes are wanted.
    pub(crate) nodes: Vec<u32>,
}

impl Operation for NodeTaking {
    ghost use Rattle.batch_add.specs.stages.TakingNodes.{IsTakingNodes, HasTakenNodes, nodes_left, nodes_takes, taking_nodes-later};

    type Done = Result<(), u32>;

    ghost under_way = { IsTakingNodes };

    ghost answers = { HasTakenNodes };

    ghost left = { nodes_left };

    ghost takes = { nodes_takes };

    ghost reached = { λ operation. None };

    ghost last_label = { None };

    ghost refused = { λ answer. ⊥ };

    ghost says = { λ first start next label. ⊤ };

    ghost entry = { λ operation. None };

    fn turn(&mut self, world: &World, pass: &mut Pass) -> Turn<Result<(), u32>> {
        self.next_turn(world, pass)
    }

    fn label(&self) -> Option<Label> {
        None
    }

    fn made(&self) -> Option<&Made> {
        None
    }

    ghost may_look = { taking_nodes-later };
}

impl NodeTaking {
    /// Begins to take so many nodes for the newest batch of the pass; no step is made yet. There is room for as many.
    pub(crate) fn new(world: &World, pass: &mut Pass, count: u32, nodes: Vec<u32>) -> NodeTaking
        requires of { IsOf world.now pass.old }
        requires some { 0 < count }
        requires nodes { length nodes.items ≡ count }
        requires preparing { (view_of pass.old).batches ≢ [] }
        requires rest { IsAtRest (view_of pass.old) }
        ensures pass { pass.new ≡ pass.old }
        ensures count { result.count ≡ count }
        ensures unloaded { LoadedNone (nodes_takes result) }
        ensures under_way { IsTakingNodes result (view_of pass.old) result (view_of pass.new) }
    {
        let lock = world.pool_lock();
        let taking = TakeOp::new(world, pass, lock, Mode::Write);
        NodeTaking {
            count,
            taken: 0,
            free: 0,
            stage: NodeStage::Locking { taking },
            nodes,
        }
    }

    /// The turn of the stage that it is at.
    fn next_turn(&mut self, world: &World, pass: &mut Pass) -> Turn<Result<(), u32>>
        requires of { IsOf world.now pass.old }
        requires under_way { IsUnderWay IsTakingNodes self.old (view_of pass.old) }
        ensures of { IsOf world.now pass.new }
        ensures turn { IsNodesTurn result self.old self.new (view_of pass.old) (view_of pass.new) }
    {
        match self.stage {
            NodeStage::Locking { taking } => self.lock(world, pass, taking),
            NodeStage::Locked => self.load_free(world, pass),
            NodeStage::Next => self.load_first(world, pass),
            NodeStage::First { node } => self.load_link(world, pass, node),
            NodeStage::Linked { node, link } => self.take_off(world, pass, node, link),
            NodeStage::Taken => self.store_free(world, pass),
            NodeStage::Leaving { answer } => self.leave(world, pass, answer),
        }
    }

    /// A turn of taking the lock.
    fn lock(&mut self, world: &World, pass: &mut Pass, taking: TakeOp) -> Turn<Result<(), u32>>
        requires of { IsOf world.now pass.old }
        requires under_way { IsUnderWay IsTakingNodes self.old (view_of pass.old) }
        requires stage { self.old.stage ≡ Locking taking }
        ensures of { IsOf world.now pass.new }
        ensures turn { IsNodesTurn result self.old self.new (view_of pass.old) (view_of pass.new) }
    {
        let mut taking = taking;
        match taking.turn(world, pass) {
            Turn::Done(()) => {
                self.stage = NodeStage::Locked;
                Turn::More
            }
            Turn::More => {
                self.stage = NodeStage::Locking { taking };
                Turn::More
            }
            Turn::Again { lock, word } => {
                self.stage = NodeStage::Locking { taking };
                Turn::Again { lock, word }
            }
        }
    }

    /// The turn that loads the count of free nodes.
    fn load_free(&mut self, world: &World, pass: &mut Pass) -> Turn<Result<(), u32>>
        requires of { IsOf world.now pass.old }
        requires under_way { IsUnderWay IsTakingNodes self.old (view_of pass.old) }
        requires stage { self.old.stage ≡ Locked }
        ensures of { IsOf world.now pass.new }
        ensures turn { IsNodesTurn result self.old self.new (view_of pass.old) (view_of pass.new) }
    {
        let free = load_count(world, pass);
        if free < u64::from(self.count) {
            self.stage = NodeStage::Leaving {
                answer: Err(free as u32),
            };
            return Turn::More;
        }
        self.free = free;
        self.stage = NodeStage::Next;
        Turn::More
    }

    /// A turn that loads the head of the pool.
    fn load_first(&mut self, world: &World, pass: &mut Pass) -> Turn<Result<(), u32>>
        requires of { IsOf world.now pass.old }
        requires under_way { IsUnderWay IsTakingNodes self.old (view_of pass.old) }
        requires stage { self.old.stage ≡ Next }
        ensures of { IsOf world.now pass.new }
        ensures turn { IsNodesTurn result self.old self.new (view_of pass.old) (view_of pass.new) }
    {
        let head = load_pool_head(world, pass);
        self.stage = NodeStage::First {
            node: (head - 1) as u32,
        };
        Turn::More
    }

    /// A turn that loads the link of the first node.
    fn load_link(&mut self, world: &World, pass: &mut Pass, node: u32) -> Turn<Result<(), u32>>
        requires of { IsOf world.now pass.old }
        requires under_way { IsUnderWay IsTakingNodes self.old (view_of pass.old) }
        requires stage { self.old.stage ≡ First node }
        ensures of { IsOf world.now pass.new }
        ensures turn { IsNodesTurn result self.old self.new (view_of pass.old) (view_of pass.new) }
    {
        let link = load_pool_link(world, pass, node);
        self.stage = NodeStage::Linked { node, link };
        Turn::More
    }

    /// A turn that takes the first node off.
    fn take_off(
        &mut self,
        world: &World,
        pass: &mut Pass,
        node: u32,
        link: u64,
    ) -> Turn<Result<(), u32>>
        requires of { IsOf world.now pass.old }
        requires under_way { IsUnderWay IsTakingNodes self.old (view_of pass.old) }
        requires stage { self.old.stage ≡ Linked node link }
        ensures of { IsOf world.now pass.new }
        ensures turn { IsNodesTurn result self.old self.new (view_of pass.old) (view_of pass.new) }
    {
        take_node_off(world, pass, link);
        self.note(node);
        Turn::More
    }

    /// Notes a node that was taken.
    fn note(&mut self, node: u32)
        requires below { self.old.taken < self.old.count }
        requires long { length self.old.nodes.items ≡ self.old.count }
        ensures { HasNotedNode self.old node self.new }
    {
        self.nodes[self.taken as usize] = node;
        self.taken += 1;
        if self.taken == self.count {
            self.stage = NodeStage::Taken;
            return;
        }
        self.stage = NodeStage::Next;
    }

    /// The turn that stores the count of nodes that are free then.
    fn store_free(&mut self, world: &World, pass: &mut Pass) -> Turn<Result<(), u32>>
        requires of { IsOf world.now pass.old }
        requires under_way { IsUnderWay IsTakingNodes self.old (view_of pass.old) }
        requires stage { self.old.stage ≡ Taken }
        ensures of { IsOf world.now pass.new }
        ensures turn { IsNodesTurn result self.old self.new (view_of pass.old) (view_of pass.new) }
    {
        store_count(world, pass, self.free - u64::from(self.count));
        self.stage = NodeStage::Leaving { answer: Ok(()) };
        Turn::More
    }

    /// The turn that lets the lock go.
    fn leave(
        &mut self,
        world: &World,
        pass: &mut Pass,
        answer: Result<(), u32>,
    ) -> Turn<Result<(), u32>>
        requires of { IsOf world.now pass.old }
        requires under_way { IsUnderWay IsTakingNodes self.old (view_of pass.old) }
        requires stage { self.old.stage ≡ Leaving answer }
        ensures of { IsOf world.now pass.new }
        ensures turn { IsNodesTurn result self.old self.new (view_of pass.old) (view_of pass.new) }
    {
        release(world, pass, world.pool_lock());
        Turn::Done(answer)
    }
}
