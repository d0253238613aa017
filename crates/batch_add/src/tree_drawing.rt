//! Drawing the planned tree over the bodies of a batch in its nodes, and placing the bodies there.
ghost use Rattle.std.specs.Prelude.{◌≡◌, ◌<◌, ◌≤◌, length, None, ⊤};
ghost use Rattle.std.specs.List.Sorted.{IsPermutation};
ghost use Rattle.tree_plan.specs.Plan.{node_count, child_at};
ghost use Rattle.pass_table.specs.declared.turn.Turn.TheVariants.{More};
ghost use Rattle.pass_table.specs.Holding.{IsAtRest};
ghost use Rattle.pass_table.specs.Passes.{view_of, IsOf};
ghost use Rattle.pass_table.specs.Turning.{IsUnderWay};
ghost use Rattle.batch_add.specs.declared.draw_stage.DrawStage.TheVariants.{Child, Side, Placing, Parent};
ghost use Rattle.batch_add.specs.stages.DrawStages.{IsToDraw, next_child, after_child, after_side, IsDrawing, IsDrawTurn};

use crate::draw_stage::DrawStage;
use fixed_box::FixBox;
use pass_table::{Label, Operation, Pass, Turn, World};
use scene_model::Made;
use tree_bounds::TreeBounds;
use tree_plan::{PlanChild, Planner};

/// Drawing the planned tree over the bodies of the newest batch in its nodes, and placing the bodies there.
///
/// It goes through the nodes in the order of the plan. Of each it stores the words of its children, each with the sides
/// of its bound and the location of the body that stands there, and then its parent.
#[derive(Drop)]
pub(crate) struct TreeDrawing {
    pub(crate) planner: Planner,
    pub(crate) bounds: TreeBounds,
    /// The bodies, by their indexes.
    pub(crate) bodies: Vec<(u32, FixBox)>,
    /// The nodes of the batch: the first becomes the plan's first, and so on.
    pub(crate) nodes: Vec<u32>,
    pub(crate) stage: DrawStage,
}

impl Operation for TreeDrawing {
    ghost use Rattle.batch_add.specs.stages.DrawStages.{IsDrawing, HasDrawnAll, draw_left};
    ghost use Rattle.batch_add.specs.stages.DrawLater.{drawing-later};

    type Done = ();

    ghost under_way = { IsDrawing };

    ghost answers = { λ first start last next answer. HasDrawnAll first start last next };

    ghost left = { draw_left };

    ghost takes = { λ operation. None };

    ghost reached = { λ operation. None };

    ghost last_label = { None };

    ghost refused = { λ answer. ⊥ };

    ghost says = { λ first start next label. ⊤ };

    ghost entry = { λ operation. None };

    fn turn(&mut self, world: &World, pass: &mut Pass) -> Turn<()> {
        self.next_turn(world, pass)
    }

    fn label(&self) -> Option<Label> {
        None
    }

    fn made(&self) -> Option<&Made> {
        None
    }

    ghost may_look = { drawing-later };
}

impl TreeDrawing {
    /// Plans the tree over the bodies and computes its bounds; no step is made yet, and no memory is taken.
    ///
    /// The bodies are put in the order in which they stand in the tree.
    pub(crate) fn new(
        pass: &Pass,
        planner: Planner,
        bounds: TreeBounds,
        bodies: Vec<(u32, FixBox)>,
        nodes: Vec<u32>,
    ) -> TreeDrawing
        requires rest { IsAtRest (view_of pass.now) }
        requires planner { length bodies.items ≤ planner.most }
        requires bounds { length bodies.items ≤ bounds.most }
        requires batch { IsToDraw (view_of pass.now) bodies.items nodes.items }
        ensures bodies { IsPermutation bodies.items result.bodies.items }
        ensures nodes { result.nodes ≡ nodes }
        ensures planner { result.planner.most ≡ planner.most }
        ensures bounds { result.bounds.most ≡ bounds.most }
        ensures first { result.stage ≡ Child 0 0 }
        ensures under_way { IsDrawing result (view_of pass.now) result (view_of pass.now) }
    {
        let mut planner = planner;
        let mut bounds = bounds;
        let mut bodies = bodies;
        bounds.plan(&mut planner, &mut bodies);
        TreeDrawing {
            planner,
            bounds,
            bodies,
            nodes,
            stage: DrawStage::Child { node: 0, child: 0 },
        }
    }

    /// The turn of the stage that it is at.
    fn next_turn(&mut self, world: &World, pass: &mut Pass) -> Turn<()>
        requires of { IsOf world.now pass.old }
        requires under_way { IsUnderWay IsDrawing self.old (view_of pass.old) }
        ensures of { IsOf world.now pass.new }
        ensures turn { IsDrawTurn result self.old self.new (view_of pass.old) (view_of pass.new) }
    {
        match self.stage {
            DrawStage::Child { node, child } => self.store_child(world, pass, node, child),
            DrawStage::Side { node, child, side } => {
                self.store_side(world, pass, node, child, side)
            }
            DrawStage::Placing { node, child, index } => {
                self.place_body(world, pass, node, child, index)
            }
            DrawStage::Parent { node } => self.store_parent(world, pass, node),
        }
    }

    /// Goes on to a stage.
    fn go_on(&mut self, stage: DrawStage) -> Turn<()>
        ensures more { result ≡ More }
        ensures stage { self.new ≡ record self.old { stage = stage } }
    {
        self.stage = stage;
        Turn::More
    }

    // ---- turns

    /// A turn that stores the word of a child.
    fn store_child(&mut self, world: &World, pass: &mut Pass, node: u32, child: u32) -> Turn<()>
        requires of { IsOf world.now pass.old }
        requires under_way { IsUnderWay IsDrawing self.old (view_of pass.old) }
        requires stage { self.old.stage ≡ Child node child }
        ensures of { IsOf world.now pass.new }
        ensures turn { IsDrawTurn result self.old self.new (view_of pass.old) (view_of pass.new) }
    {
        let here = self.planner.child(node, child);
        self.put_child(world, pass, node, child, here);
        self.go_on(after_child(node, child, here))
    }

    /// A turn that stores a side of the bound of a child.
    fn store_side(
        &mut self,
        world: &World,
        pass: &mut Pass,
        node: u32,
        child: u32,
        side: u32,
    ) -> Turn<()>
        requires of { IsOf world.now pass.old }
        requires under_way { IsUnderWay IsDrawing self.old (view_of pass.old) }
        requires stage { self.old.stage ≡ Side node child side }
        ensures of { IsOf world.now pass.new }
        ensures turn { IsDrawTurn result self.old self.new (view_of pass.old) (view_of pass.new) }
    {
        let word = self.side(node, child, side);
        self.put_side(world, pass, node, child, side, word);
        let next = self.after_side(node, child, side);
        self.go_on(next)
    }

    /// The turn that stores the location of a body.
    fn place_body(
        &mut self,
        world: &World,
        pass: &mut Pass,
        node: u32,
        child: u32,
        index: u32,
    ) -> Turn<()>
        requires of { IsOf world.now pass.old }
        requires under_way { IsUnderWay IsDrawing self.old (view_of pass.old) }
        requires stage { self.old.stage ≡ Placing node child index }
        ensures of { IsOf world.now pass.new }
        ensures turn { IsDrawTurn result self.old self.new (view_of pass.old) (view_of pass.new) }
    {
        self.put_place(world, pass, node, child, index);
        self.go_on(next_child(node, child))
    }

    /// The turn that stores the parent of a node; after that of the last node all is done.
    fn store_parent(&mut self, world: &World, pass: &mut Pass, node: u32) -> Turn<()>
        requires of { IsOf world.now pass.old }
        requires under_way { IsUnderWay IsDrawing self.old (view_of pass.old) }
        requires stage { self.old.stage ≡ Parent node }
        ensures of { IsOf world.now pass.new }
        ensures turn { IsDrawTurn result self.old self.new (view_of pass.old) (view_of pass.new) }
    {
        let count = self.planner.len();
        if node + 1 == count {
            self.put_last_parent(world, pass, node);
            return Turn::Done(());
        }
        self.put_parent(world, pass, node);
        self.go_on(DrawStage::Child {
            node: node + 1,
            child: 0,
        })
    }

    // ---- what comes next

    /// What comes after a side: the next one, and after the last one the location of the body that stands there.
    fn after_side(&self, node: u32, child: u32, side: u32) -> DrawStage
        requires node { node < node_count self.now.planner }
        requires child { child < 4 }
        requires side { side < 6 }
        ensures { result ≡ after_side node child side (child_at self.now.planner node child) }
    {
        if side < 5 {
            return DrawStage::Side {
                node,
                child,
                side: side + 1,
            };
        }
        match self.planner.child(node, child) {
            PlanChild::Body(index) => DrawStage::Placing { node, child, index },
            _ => next_child(node, child),
        }
    }
}

/// What comes after the word of a child: the sides of its bound, where something stands there.
fn after_child(node: u32, child: u32, here: PlanChild) -> DrawStage
    requires { child < 4 }
    ensures { result ≡ after_child node child here }
{
    match here {
        PlanChild::Nothing => next_child(node, child),
        _ => DrawStage::Side {
            node,
            child,
            side: 0,
        },
    }
}

/// What comes after a child is done: the next one, and after the last one the parent of the node.
fn next_child(node: u32, child: u32) -> DrawStage
    requires { child < 4 }
    ensures { result ≡ next_child node child }
{
    if child < 3 {
        DrawStage::Child {
            node,
            child: child + 1,
        }
    } else {
        DrawStage::Parent { node }
    }
}
