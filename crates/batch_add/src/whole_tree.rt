//! Drawing a whole tree at once: the steps that the turns make, in the same order, as nested loops.
ghost use Rattle.std.specs.Prelude.{◌≡◌};
ghost use Rattle.core_state.specs.declared.view.View.{View};
ghost use Rattle.tree_plan.specs.Plan.{child_at};
ghost use Rattle.pass_table.specs.Passes.{view_of, IsOf};
ghost use Rattle.pass_table.specs.Turning.{IsUnderWay};
ghost use Rattle.batch_add.specs.declared.draw_stage.DrawStage.TheVariants.{Child, Side, Parent};
ghost use Rattle.batch_add.specs.declared.tree_drawing.TreeDrawing.{TreeDrawing};
ghost use Rattle.batch_add.specs.stages.DrawStages.{at_stage, next_child, after_sides, IsDrawing, HasDrawnAll, Draws};

use crate::tree_drawing::TreeDrawing;
use pass_table::{Pass, World};
use tree_plan::PlanChild;

impl TreeDrawing {
    /// Draws all nodes, from the first to the last. No turn was made before.
    pub(crate) fn draw_all(&self, world: &World, pass: &mut Pass)
        requires of { IsOf world.now pass.old }
        requires under_way { IsUnderWay IsDrawing self.now (view_of pass.old) }
        requires first { self.now.stage ≡ Child 0 0 }
        ensures of { IsOf world.now pass.new }
        ensures answers { (first : TreeDrawing) (start : View) → IsDrawing first start self.now (view_of pass.old) → HasDrawnAll first start self.now (view_of pass.new) }
    {
        let last = self.planner.len() - 1;
        for node in 0..last {
            self.draw_children(world, pass, node);
            self.put_parent(world, pass, node);
        }
        self.draw_children(world, pass, last);
        self.put_last_parent(world, pass, last);
    }

    /// Draws the four children of a node.
    fn draw_children(&self, world: &World, pass: &mut Pass, node: u32)
        requires of { IsOf world.now pass.old }
        requires under_way { IsUnderWay IsDrawing (at_stage self.now (Child node 0)) (view_of pass.old) }
        ensures of { IsOf world.now pass.new }
        ensures draws { Draws self.now (Child node 0) (view_of pass.old) (Parent node) (view_of pass.new) }
    {
        self.draw_child(world, pass, node, 0);
        self.draw_child(world, pass, node, 1);
        self.draw_child(world, pass, node, 2);
        self.draw_child(world, pass, node, 3);
    }

    /// Draws a child: its word, and where something stands there the sides of its bound and the location of a body.
    fn draw_child(&self, world: &World, pass: &mut Pass, node: u32, number: u32)
        requires of { IsOf world.now pass.old }
        requires under_way { IsUnderWay IsDrawing (at_stage self.now (Child node number)) (view_of pass.old) }
        ensures of { IsOf world.now pass.new }
        ensures draws { Draws self.now (Child node number) (view_of pass.old) (next_child node number) (view_of pass.new) }
    {
        let child = self.planner.child(node, number);
        self.put_child(world, pass, node, number, child);
        match child {
            PlanChild::Nothing => {}
            PlanChild::Body(index) => {
                self.draw_sides(world, pass, node, number);
                self.put_place(world, pass, node, number, index);
            }
            PlanChild::Node(_) => self.draw_sides(world, pass, node, number),
        }
    }

    /// Stores the six sides of the bound of a child.
    fn draw_sides(&self, world: &World, pass: &mut Pass, node: u32, child: u32)
        requires of { IsOf world.now pass.old }
        requires under_way { IsUnderWay IsDrawing (at_stage self.now (Side node child 0)) (view_of pass.old) }
        ensures of { IsOf world.now pass.new }
        ensures draws { Draws self.now (Side node child 0) (view_of pass.old) (after_sides node child (child_at self.now.planner node child)) (view_of pass.new) }
    {
        let words = self.bounds.bound(node, child).to_words();
        for number in 0..6 {
            self.put_side(world, pass, node, child, number, words[number as usize]);
        }
    }
}
