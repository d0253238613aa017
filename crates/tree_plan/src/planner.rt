ghost use Rattle.std.specs.Prelude.{◌≡◌, [], ◌*◌, ◌<◌, ◌≤◌, length, IfOk};
ghost use Rattle.std.specs.List.Sorted.{IsPermutation};
ghost use Rattle.tree_plan.specs.Arranged.{AreApart};
ghost use Rattle.tree_plan.specs.declared.node_count.TheConstants.{MAX_TREE_BODIES};

use crate::arrange::arrange;
use crate::node_count::need;
use crate::numbering::number_nodes;
use crate::plan_child::PlanChild;
use crate::run::Run;
use fixed_box::{Coord, FixBox};
use std::alloc::{AllocError, Global};
use std::marker::Model;

/// The tree over a list of bodies, as nodes with four children each.
///
/// Nodes are numbered breadth first, from 0 for the root. The memory for the largest tree is taken at once, so a
/// planner serves for one tree after another.
#[derive(Debug, Drop)]
pub struct Planner {
    most: u32,
    len: u32,
    runs: Vec<Run>,
    children: Vec<PlanChild>,
    /// Written over where bodies are halved.
    room: Vec<(u32, FixBox)>,
}

impl Model for Planner {
    ghost use Rattle.std.specs.Prelude.{◌*◌, ◌≤◌, map, take, vec_len};
    ghost use Rattle.scene_model.specs.Need.{need};
    ghost use Rattle.tree_plan.specs.Plan.{Plan};
    ghost use Rattle.tree_plan.specs.declared.node_count.TheConstants.{MAX_TREE_BODIES};

    ghost Value = { Plan };

    ghost view = { λ p. record {
      most = p.most;
      children = take (4 * p.len) p.children.items;
      parents = map (λ r. r.parent) (take p.len p.runs.items);
    } };

    ghost invariant = { λ p. (p.most ≤ MAX_TREE_BODIES) × (p.len ≤ need p.most) × (need p.most ≤ vec_len p.runs)
        × (4 * need p.most ≤ vec_len p.children) × (p.most ≤ vec_len p.room) };
}

impl Planner {
    ghost use Rattle.tree_plan.specs.Plan.{node_count, child_at, parent_at, IsPlanOf, HaveBoxesOf};

    /// A planner for so many bodies at most, no more than `MAX_TREE_BODIES`. It has no nodes yet. It takes all memory that it ever needs, and fails
    /// where there is not enough.
    pub fn new(alloc: Global, most: u32) -> Result<Planner, AllocError>
        requires { most ≤ MAX_TREE_BODIES }
        ensures { IfOk result (λ p. p ≡ record { most = most; children = []; parents = [] }) }
    {
        let nodes = need(most) as usize;
        let run = Run {
            start: 0,
            size: 0,
            parent: None,
        };
        let corner = [Coord { value: 0 }; 3];
        let bounds = FixBox {
            lo: corner,
            hi: corner,
        };
        Ok(Planner {
            most,
            len: 0,
            runs: vec![in alloc; run; nodes]?,
            children: vec![in alloc; PlanChild::Nothing; 4 * nodes]?,
            room: vec![in alloc; (0, bounds); most as usize]?,
        })
    }

    /// Plans the tree over these bodies, in place of the tree before. It puts the bodies in another order and takes
    /// no memory.
    pub fn fill(&mut self, bodies: &mut [(u32, FixBox)])
        requires few { length bodies.old ≤ self.old.most }
        requires apart { AreApart bodies.old }
        ensures plan { IsPlanOf bodies.old self.new }
        ensures most { self.new.most ≡ self.old.most }
        ensures bodies { IsPermutation bodies.old bodies.new }
        ensures still_apart { AreApart bodies.new }
    {
        let mut none: [FixBox; 0] = [];
        self.fill_with_boxes(bodies, &mut none);
    }

    /// Plans the tree over these bodies as `fill` does, and writes the box of each body where it stands in the tree: that
    /// of child c of node n at 4 * n + c. Places for which there is no room are left out.
    pub fn fill_with_boxes(&mut self, bodies: &mut [(u32, FixBox)], boxes: &mut [FixBox])
        requires few { length bodies.old ≤ self.old.most }
        requires apart { AreApart bodies.old }
        ensures plan { IsPlanOf bodies.old self.new }
        ensures boxes { HaveBoxesOf bodies.old self.new boxes.new }
        ensures boxes_room { length boxes.new ≡ length boxes.old }
        ensures most { self.new.most ≡ self.old.most }
        ensures bodies { IsPermutation bodies.old bodies.new }
        ensures still_apart { AreApart bodies.new }
    {
        arrange(bodies, &mut self.room);
        let nodes = need(bodies.len() as u32);
        self.len = nodes;
        if nodes > 0 {
            let nodes = nodes as usize;
            number_nodes(bodies, &mut self.runs, &mut self.children, boxes, nodes);
        }
    }

    /// How many nodes the tree has.
    pub fn len(&self) -> u32
        ensures { result ≡ node_count self.now }
    {
        self.len
    }

    /// What stands at the place of a child, from 0 to 3, of a node.
    pub fn child(&self, node: u32, c: u32) -> PlanChild
        requires node { node < node_count self.now }
        requires child { c < 4 }
        ensures { result ≡ child_at self.now node c }
    {
        self.children[4 * node as usize + c as usize]
    }

    /// The node above a node, with the child's number at which it stands there, and `None` for the root.
    pub fn parent(&self, node: u32) -> Option<(u32, u32)>
        requires { node < node_count self.now }
        ensures { result ≡ parent_at self.now node }
    {
        self.runs[node as usize].parent
    }
}
