ghost use Rattle.std.specs.Prelude.{◌≡◌, ℕ, List, [], ◌*◌, ◌<◌, ◌≤◌, length, IfOk};
ghost use Rattle.std.specs.List.Sorted.{IsPermutation};
ghost use Rattle.fixed_box.specs.declared.fix_box.FixBox.{FixBox};
ghost use Rattle.scene_model.specs.Need.{need};
ghost use Rattle.tree_plan.specs.Arranged.{AreApart};
ghost use Rattle.tree_plan.specs.declared.node_count.TheConstants.{MAX_TREE_BODIES};
ghost use Rattle.tree_plan.specs.declared.plan_child.PlanChild.TheVariants.{Body, Node};
ghost use Rattle.tree_plan.specs.Plan.{node_count, child_at, IsPlanOf, HaveBoxesOf};
ghost use Rattle.tree_bounds.specs.Bounds.{IsHullOfNode, AreBoundsOf};
ghost use Rattle.tree_bounds.specs.Held.{bound_in, bound_of};

use crate::hull::hull_of_node;
use fixed_box::{Coord, FixBox};
use std::alloc::{AllocError, Global};
use std::marker::Model;
use tree_plan::{PlanChild, Planner, need};

/// The bound of one child: of a node the hull of the bounds that stand at its children. A body's box is there already, and
/// where there is no child the bound stays.
fn bound_of_child(planner: &Planner, bounds: &[FixBox], node: u32, c: u32) -> FixBox
    requires planned { (bodies : List (ℕ × FixBox)) × IsPlanOf bodies planner.now }
    requires room { 4 * node_count planner.now ≤ length bounds.now }
    requires node { node < node_count planner.now }
    requires child { c < 4 }
    ensures a_body { (index : ℕ) → child_at planner.now node c ≡ Body index → result ≡ bound_in bounds.now node c }
    ensures a_node { (m : ℕ) → child_at planner.now node c ≡ Node m → IsHullOfNode planner.now (bound_in bounds.now) m result }
{
    match planner.child(node, c) {
        PlanChild::Node(below) => hull_of_node(planner, bounds, below),
        _ => bounds[4 * node as usize + c as usize],
    }
}

/// Writes the bounds of all nodes over the boxes of the bodies, from the last place to the first. A node stands above those
/// below it in number, so their bounds are there before its own.
fn fill_from_the_last(planner: &Planner, bodies: &[(u32, FixBox)], bounds: &mut [FixBox])
    requires planned { IsPlanOf bodies.now planner.now }
    requires boxes { HaveBoxesOf bodies.now planner.now bounds.old }
    requires room { 4 * node_count planner.now ≤ length bounds.old }
    ensures bounds { AreBoundsOf bodies.now planner.now (bound_in bounds.new) }
    ensures room { length bounds.new ≡ length bounds.old }
{
    let places = 4 * planner.len() as usize;
    for done in 0..places {
        let place = places - 1 - done;
        let node = (place / 4) as u32;
        let child = (place % 4) as u32;
        let bound = bound_of_child(planner, bounds, node, child);
        bounds[place] = bound;
    }
}

/// Plans the tree over bodies, and writes the bounds of all children.
fn plan_with_bounds(planner: &mut Planner, bodies: &mut [(u32, FixBox)], bounds: &mut [FixBox])
    requires few { length bodies.old ≤ planner.old.most }
    requires apart { AreApart bodies.old }
    requires room { 4 * need (length bodies.old) ≤ length bounds.old }
    ensures plan { IsPlanOf bodies.old planner.new }
    ensures bounds { AreBoundsOf bodies.old planner.new (bound_in bounds.new) }
    ensures room { length bounds.new ≡ length bounds.old }
    ensures most { planner.new.most ≡ planner.old.most }
    ensures bodies { IsPermutation bodies.old bodies.new }
{
    planner.fill_with_boxes(bodies, bounds);
    fill_from_the_last(planner, bodies, bounds);
}

/// The bounds of the children of a planned tree, four for each node.
///
/// The memory for the largest tree is taken at once, so the same serves for one tree after another.
#[derive(Debug, Drop)]
pub struct TreeBounds {
    most: u32,
    len: u32,
    bounds: Vec<FixBox>,
}

impl Model for TreeBounds {
    ghost use Rattle.std.specs.Prelude.{◌*◌, ◌≤◌, take, vec_len};
    ghost use Rattle.scene_model.specs.Need.{need};
    ghost use Rattle.tree_plan.specs.declared.node_count.TheConstants.{MAX_TREE_BODIES};
    ghost use Rattle.tree_bounds.specs.Held.{HeldBounds};

    ghost Value = { HeldBounds };

    ghost view = { λ t. record { most = t.most; nodes = t.len; boxes = take (4 * t.len) t.bounds.items } };

    ghost invariant = { λ t. (t.most ≤ MAX_TREE_BODIES) × (t.len ≤ need t.most) × (4 * need t.most ≤ vec_len t.bounds) };
}

impl TreeBounds {
    /// Room for the bounds of a tree over so many bodies at most. It has none yet. It takes all memory that it ever
    /// needs, and fails where there is not enough.
    pub fn new(alloc: Global, most: u32) -> Result<TreeBounds, AllocError>
        requires { most ≤ MAX_TREE_BODIES }
        ensures { IfOk result (λ t. t ≡ record { most = most; nodes = 0; boxes = [] }) }
    {
        let corner = [Coord { value: 0 }; 3];
        let bounds = FixBox {
            lo: corner,
            hi: corner,
        };
        Ok(TreeBounds {
            most,
            len: 0,
            bounds: vec![in alloc; bounds; 4 * need(most) as usize]?,
        })
    }

    /// Plans the tree over these bodies and computes its bounds, in place of the tree and the bounds before. It puts the
    /// bodies in another order and takes no memory.
    pub fn plan(&mut self, planner: &mut Planner, bodies: &mut [(u32, FixBox)])
        requires few { length bodies.old ≤ self.old.most }
        requires few_planned { length bodies.old ≤ planner.old.most }
        requires apart { AreApart bodies.old }
        ensures plan { IsPlanOf bodies.old planner.new }
        ensures bounds { AreBoundsOf bodies.old planner.new (bound_of self.new) }
        ensures nodes { self.new.nodes ≡ node_count planner.new }
        ensures most { self.new.most ≡ self.old.most }
        ensures planner_most { planner.new.most ≡ planner.old.most }
        ensures bodies { IsPermutation bodies.old bodies.new }
    {
        plan_with_bounds(planner, bodies, &mut self.bounds);
        self.len = planner.len();
    }

    /// How many nodes have bounds.
    pub fn len(&self) -> u32
        ensures { result ≡ self.now.nodes }
    {
        self.len
    }

    /// The bound of a child, from 0 to 3, of a node. Where no child stands it is of no meaning.
    pub fn bound(&self, node: u32, c: u32) -> FixBox
        requires node { node < self.now.nodes }
        requires child { c < 4 }
        ensures { result ≡ bound_of self.now node c }
    {
        self.bounds[4 * node as usize + c as usize]
    }
}
