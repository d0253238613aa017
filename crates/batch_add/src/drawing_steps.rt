//! The steps of drawing a tree: each stores one word.
ghost use Rattle.std.specs.Prelude.{◌≡◌, ◌+◌, ◌<◌, ℕ, suc, length};
ghost use Rattle.tree_plan.specs.declared.plan_child.PlanChild.TheVariants.{Node};
ghost use Rattle.tree_plan.specs.Plan.{node_count, child_at, parent_at};
ghost use Rattle.tree_bounds.specs.Bounds.{side};
ghost use Rattle.tree_bounds.specs.Held.{bound_of};
ghost use Rattle.pass_table.specs.declared.turn.Turn.TheVariants.{Done, More};
ghost use Rattle.pass_table.specs.Passes.{view_of, IsOf};
ghost use Rattle.pass_table.specs.Turning.{IsUnderWay};
ghost use Rattle.batch_add.specs.declared.draw_stage.DrawStage.TheVariants.{Child, Side, Placing, Parent};
ghost use Rattle.batch_add.specs.Drawing.{node_at, child_word, parent_word};
ghost use Rattle.batch_add.specs.stages.DrawStages.{at_stage, next_child, after_child, after_side, HasNodesFor, IsDrawing, IsDrawTurn};

use crate::tree_drawing::TreeDrawing;
use pass_table::{Pass, World, step_20, step_21, step_22, step_23};
use tree_plan::PlanChild;
use word_map::{ChildWord, LocationWord, Name};

impl TreeDrawing {
    // ---- what is stored

    /// The node of the table that a node of the plan becomes.
    fn node(&self, number: u32) -> u32
        requires below { number < length self.now.nodes.items }
        ensures { result ≡ node_at self.now.nodes.items number }
    {
        self.nodes[number as usize]
    }

    /// The word of a child.
    fn child_word(&self, child: PlanChild) -> u64
        requires below { (m : ℕ) → child ≡ Node m → m < length self.now.nodes.items }
        ensures { result ≡ child_word self.now.nodes.items child }
    {
        match child {
            PlanChild::Nothing => ChildWord::Empty.to_word(),
            PlanChild::Body(index) => ChildWord::Body { index }.to_word(),
            PlanChild::Node(below) => ChildWord::Node {
                node: self.node(below),
            }
            .to_word(),
        }
    }

    /// A side of the bound of a child.
    pub(crate) fn side(&self, node: u32, child: u32, number: u32) -> u64
        requires node { node < self.now.bounds.nodes }
        requires child { child < 4 }
        requires number { number < 6 }
        ensures { result ≡ side (bound_of self.now.bounds node child) number }
    {
        self.bounds.bound(node, child).to_words()[number as usize]
    }

    /// The word of a node's parent.
    fn parent_word(&self, node: u32) -> u64
        requires node { node < node_count self.now.planner }
        requires nodes { HasNodesFor self.now.planner self.now.nodes.items }
        ensures { result ≡ parent_word self.now.nodes.items (parent_at self.now.planner node) }
    {
        match self.planner.parent(node) {
            None => LocationWord::Nowhere.to_word(),
            Some((above, child)) => LocationWord::At {
                node: self.node(above),
                child,
            }
            .to_word(),
        }
    }

    // ---- steps

    /// Stores the word of a child.
    pub(crate) fn put_child(
        &self,
        world: &World,
        pass: &mut Pass,
        node: u32,
        number: u32,
        child: PlanChild,
    )
        requires of { IsOf world.now pass.old }
        requires under_way { IsUnderWay IsDrawing (at_stage self.now (Child node number)) (view_of pass.old) }
        requires child { child ≡ child_at self.now.planner node number }
        ensures of { IsOf world.now pass.new }
        ensures turn { IsDrawTurn More (at_stage self.now (Child node number)) (at_stage self.now (after_child node number child)) (view_of pass.old) (view_of pass.new) }
    {
        let at = self.node(node);
        let word = self.child_word(child);
        step_20(world, pass, Name::Child(at, number), word);
    }

    /// Stores a side of the bound of a child.
    pub(crate) fn put_side(
        &self,
        world: &World,
        pass: &mut Pass,
        node: u32,
        child: u32,
        number: u32,
        word: u64,
    )
        requires of { IsOf world.now pass.old }
        requires under_way { IsUnderWay IsDrawing (at_stage self.now (Side node child number)) (view_of pass.old) }
        requires word { word ≡ side (bound_of self.now.bounds node child) number }
        ensures of { IsOf world.now pass.new }
        ensures turn { IsDrawTurn More (at_stage self.now (Side node child number)) (at_stage self.now (after_side node child number (child_at self.now.planner node child))) (view_of pass.old) (view_of pass.new) }
    {
        let at = self.node(node);
        step_21(world, pass, Name::Bound(at, child, number), word);
    }

    /// Stores the location of a body.
    pub(crate) fn put_place(
        &self,
        world: &World,
        pass: &mut Pass,
        node: u32,
        child: u32,
        index: u32,
    )
        requires of { IsOf world.now pass.old }
        requires under_way { IsUnderWay IsDrawing (at_stage self.now (Placing node child index)) (view_of pass.old) }
        ensures of { IsOf world.now pass.new }
        ensures turn { IsDrawTurn More (at_stage self.now (Placing node child index)) (at_stage self.now (next_child node child)) (view_of pass.old) (view_of pass.new) }
    {
        let location = LocationWord::At {
            node: self.node(node),
            child,
        };
        step_23(world, pass, Name::LocA(index), location.to_word());
    }

    /// Stores the parent of a node that is not the last one.
    pub(crate) fn put_parent(&self, world: &World, pass: &mut Pass, node: u32)
        requires of { IsOf world.now pass.old }
        requires under_way { IsUnderWay IsDrawing (at_stage self.now (Parent node)) (view_of pass.old) }
        requires more { suc node < node_count self.now.planner }
        ensures of { IsOf world.now pass.new }
        ensures turn { IsDrawTurn More (at_stage self.now (Parent node)) (at_stage self.now (Child (node + 1) 0)) (view_of pass.old) (view_of pass.new) }
    {
        let at = self.node(node);
        let word = self.parent_word(node);
        step_22(world, pass, Name::Parent(at), word);
    }

    /// Stores the parent of the last node.
    pub(crate) fn put_last_parent(&self, world: &World, pass: &mut Pass, node: u32)
        requires of { IsOf world.now pass.old }
        requires under_way { IsUnderWay IsDrawing (at_stage self.now (Parent node)) (view_of pass.old) }
        requires last { suc node ≡ node_count self.now.planner }
        ensures of { IsOf world.now pass.new }
        ensures turn { IsDrawTurn (Done tt) (at_stage self.now (Parent node)) self.now (view_of pass.old) (view_of pass.new) }
    {
        let at = self.node(node);
        let word = self.parent_word(node);
        step_22(world, pass, Name::Parent(at), word);
    }
}
