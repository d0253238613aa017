ghost use Rattle.std.specs.Prelude.{◌≡◌, ◌+◌, ◌*◌, ◌<◌, ◌≤◌, length, slice_set};
ghost use Rattle.scene_model.specs.Need.{need};
ghost use Rattle.tree_plan.specs.Numbering.{IsNumbered, HaveBoxes};
ghost use Rattle.tree_plan.specs.declared.node_count.TheConstants.{MAX_TREE_BODIES};

use crate::plan_child::PlanChild;
use crate::run::Run;
use fixed_box::FixBox;

/// Writes a box at the place of a slot, if there is one.
fn put_box(boxes: &mut [FixBox], slot: usize, bounds: FixBox)
    ensures { boxes.new ≡ slice_set boxes.old slot bounds }
{
    if slot < boxes.len() {
        boxes[slot] = bounds;
    }
}

/// Fills a slot by what its run asks for: with nothing, with its only body, whose box is then written as far as there
/// is room, or with the next node, which then stands over the run. It returns how many nodes there are then.
fn fill_slot(
    bodies: &[(u32, FixBox)],
    runs: &mut [Run],
    children: &mut [PlanChild],
    boxes: &mut [FixBox],
    nodes: usize,
    count: usize,
    slot: usize,
) -> usize
    requires few { nodes ≤ MAX_TREE_BODIES }
    requires before { IsNumbered bodies.now runs.old children.old nodes count slot }
    requires boxes_before { HaveBoxes bodies.now children.old boxes.old slot }
    requires slot { slot < 4 * nodes }
    ensures numbered { IsNumbered bodies.now runs.new children.new nodes result (slot + 1) }
    ensures boxes { HaveBoxes bodies.now children.new boxes.new (slot + 1) }
    ensures room { length boxes.new ≡ length boxes.old }
{
    let node = slot / 4;
    let child = slot % 4;
    let (start, size) = runs[node].quarter(child);
    if size == 0 {
        children[slot] = PlanChild::Nothing;
        return count;
    }
    if size == 1 {
        children[slot] = PlanChild::Body(bodies[start].0);
        put_box(boxes, slot, bodies[start].1);
        return count;
    }
    runs[count] = Run {
        start,
        size,
        parent: Some((node as u32, child as u32)),
    };
    children[slot] = PlanChild::Node(count as u32);
    count + 1
}

/// Numbers the nodes of the tree over bodies that are arranged, breadth first, as many as they need, and writes the
/// boxes of the bodies at their places, as far as there is room.
pub(crate) fn number_nodes(
    bodies: &[(u32, FixBox)],
    runs: &mut [Run],
    children: &mut [PlanChild],
    boxes: &mut [FixBox],
    nodes: usize,
)
    requires few { nodes ≤ MAX_TREE_BODIES }
    requires some { 0 < length bodies.now }
    requires nodes { nodes ≡ need (length bodies.now) }
    requires room { nodes ≤ length runs.old }
    requires places { 4 * nodes ≤ length children.old }
    ensures numbered { IsNumbered bodies.now runs.new children.new nodes nodes (4 * nodes) }
    ensures boxes { HaveBoxes bodies.now children.new boxes.new (4 * nodes) }
    ensures boxes_room { length boxes.new ≡ length boxes.old }
{
    runs[0] = Run {
        start: 0,
        size: bodies.len(),
        parent: None,
    };
    let mut count = 1;
    for slot in 0..4 * nodes {
        count = fill_slot(bodies, runs, children, boxes, nodes, count, slot);
    }
}
