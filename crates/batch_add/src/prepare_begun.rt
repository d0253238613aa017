//! How a preparation is begun: all memory that it needs is taken.
ghost use Rattle.std.specs.Prelude.{◌≡◌, ◌<◌, ◌≤◌, length, map, All, IfOk, None};
ghost use Rattle.tree_plan.specs.declared.node_count.TheConstants.{MAX_TREE_BODIES};
ghost use Rattle.scene_model.specs.Need.{need};
ghost use Rattle.pass_table.specs.Passes.{view_of, IsIdle};
ghost use Rattle.batch_add.specs.stages.Preparing.{ids_of, IsPreparing, CanPlan, label_of};

use crate::mark_op::{MarkStage, Marking};
use crate::node_taking::{NodeStage, NodeTaking};
use crate::prepare_op::{Plans, PrepareOp, PrepareStage};
use crate::slot_search::SlotSearch;
use body_ident::BodyId;
use body_look::{LookDepth, LookOp};
use core_state::Mode;
use fixed_box::{Coord, FixBox};
use pass_table::{Pass, World};
use std::alloc::{AllocError, Global};
use tree_bounds::TreeBounds;
use tree_plan::{Planner, need};

impl PrepareOp {
    /// Begins to prepare a batch of the bodies of these ids, in this layer; no step is made yet. It fails only for want of
    /// memory, and then nothing was done.
    pub fn new(
        alloc: Global,
        world: &World,
        pass: &mut Pass,
        layer: u32,
        ids: &[BodyId],
    ) -> Result<PrepareOp, AllocError>
        requires idle { IsIdle world.now pass.old }
        requires in_layers { layer < world.now.map.layers }
        requires below { All (λ id. id.index < world.now.map.bodies) ids.now }
        requires few { length ids.now ≤ world.now.map.bodies }
        ensures pass { pass.new ≡ pass.old }
        ensures begun { IfOk result (λ op. (op.layer ≡ layer) × (ids_of op ≡ ids.now) × IsPreparing op (view_of pass.old) op (view_of pass.new)) }
        ensures unlabelled { IfOk result (λ op. label_of op ≡ None) }
    {
        let count = ids.len() as u32;
        let words = vec![in alloc; 0; world.config().slots as usize]?;
        let taking = nodes_to_take(alloc, need(count))?;
        let plans = room_to_plan(alloc, count)?;
        let indexes = indexes_of(alloc, ids)?;
        let search = SlotSearch::new(world, pass, layer, words);
        let first = BodyId::new(0, 0);
        let look = LookOp::new(world, pass, first, Mode::Write, LookDepth::Phase);
        let marking = bodies_to_mark(alloc, layer, ids, look)?;
        Ok(PrepareOp {
            alloc,
            layer,
            slot: 0,
            stage: if count == 0 {
                PrepareStage::Empty
            } else {
                PrepareStage::Searching
            },
            search,
            taking,
            marking,
            plans: Some(plans),
            drawing: None,
            giving: None,
            indexes,
        })
    }
}

/// Room for so many nodes. They are not taken yet.
fn nodes_to_take(alloc: Global, count: u32) -> Result<NodeTaking, AllocError>
    ensures { IfOk result (λ taking. (taking.count ≡ count) × (length taking.nodes.items ≡ count)) }
{
    Ok(NodeTaking {
        count,
        taken: 0,
        free: 0,
        stage: NodeStage::Locked,
        nodes: vec![in alloc; 0; count as usize]?,
    })
}

/// The ids, and room for their bodies. None is marked yet, and the look stands there until the marks are begun.
fn bodies_to_mark(
    alloc: Global,
    layer: u32,
    ids: &[BodyId],
    look: LookOp,
) -> Result<Marking, AllocError>
    ensures { IfOk result (λ marking. (marking.ids.items ≡ ids.now) × (length marking.bodies.items ≡ length ids.now) × (marking.made ≡ None)) }
{
    let corner = [Coord { value: 0 }; 3];
    let bounds = FixBox {
        lo: corner,
        hi: corner,
    };
    Ok(Marking {
        layer,
        slot: 0,
        ids: own_ids(alloc, ids)?,
        bodies: vec![in alloc; (0, bounds); ids.len()]?,
        marked: 0,
        look,
        stage: MarkStage::Outside,
        made: None,
    })
}

/// Room to plan the tree over so many bodies.
fn room_to_plan(alloc: Global, count: u32) -> Result<Plans, AllocError>
    requires { count ≤ MAX_TREE_BODIES }
    ensures { IfOk result (λ plans. (plans.planner.most ≡ count) × (plans.bounds.most ≡ count)) }
{
    Ok(Plans {
        planner: Planner::new(alloc, count)?,
        bounds: TreeBounds::new(alloc, count)?,
    })
}

/// A list of these ids of its own.
fn own_ids(alloc: Global, ids: &[BodyId]) -> Result<Vec<BodyId>, AllocError>
    ensures { IfOk result (λ own. own.items ≡ ids.now) }
{
    let mut own = Vec::with_capacity(alloc, ids.len())?;
    for id in ids {
        own.push(*id)?;
    }
    Ok(own)
}

/// The indexes of the ids.
fn indexes_of(alloc: Global, ids: &[BodyId]) -> Result<Vec<u32>, AllocError>
    ensures { IfOk result (λ indexes. indexes.items ≡ map (λ id. id.index) ids.now) }
{
    let mut indexes = Vec::with_capacity(alloc, ids.len())?;
    for id in ids {
        indexes.push(id.index())?;
    }
    Ok(indexes)
}
