//! Calls on batches, made by the one pass of a world.
ghost use Rattle.std.specs.Prelude.{◌≡◌, ◌<◌, ◌≤◌, length, slice_index_or, map, All, IfOk, OnOk};
ghost use Rattle.std.specs.List.{remove};
ghost use Rattle.pass_table.specs.Passes.{view_of};
ghost use Rattle.batch_add.specs.declared.prepared.Prepared.{Prepared};
ghost use Rattle.batch_add.specs.PreparedLists.{batches_of, AreGood};
ghost use Rattle.world_host.specs.Alone.{IsLone};
ghost use Rattle.world_host.specs.Batches.{WasAttached, WasGivenUp, refusal_for, ListAfter, TakesAlone, AddsAlone};

use batch_add::{PrepareRefused, PreparedList};
use body_ident::BodyId;
use pass_table::{Pass, World};
use reply_text::Refusal;
use script_player::Known;
use std::alloc::{AllocError, Global};
use std::sync::Wait;

/// Attaches the batch at this place of a list.
pub(crate) fn finalize_alone(
    world: &World,
    pass: &mut Pass,
    batches: &mut PreparedList,
    place: usize,
)
    requires lone { IsLone world.now pass.old }
    requires good { AreGood batches.old (view_of pass.old) }
    requires there { place < length (batches_of batches.old) }
    ensures lone { IsLone world.now pass.new }
    ensures good { AreGood batches.new (view_of pass.new) }
    ensures others { batches_of batches.new ≡ remove (batches_of batches.old) place }
    ensures attached { (batch : Prepared) × (batch ≡ slice_index_or (batches_of batches.old) place batch) × WasAttached batch.layer batch.indexes.items (view_of pass.old) (view_of pass.new) }
{
    batches.finalize(world, pass, place);
}

/// Gives the batch at this place of a list up.
pub(crate) fn abort_alone<R: Wait>(
    rt: &R,
    world: &World,
    pass: &mut Pass,
    batches: &mut PreparedList,
    place: usize,
)
    requires lone { IsLone world.now pass.old }
    requires good { AreGood batches.old (view_of pass.old) }
    requires there { place < length (batches_of batches.old) }
    ensures lone { IsLone world.now pass.new }
    ensures good { AreGood batches.new (view_of pass.new) }
    ensures others { batches_of batches.new ≡ remove (batches_of batches.old) place }
    ensures given_up { (batch : Prepared) × (batch ≡ slice_index_or (batches_of batches.old) place batch) × WasGivenUp batch.layer batch.indexes.items (view_of pass.old) (view_of pass.new) }
{
    batches.abort(rt, world, pass, place);
}

/// Why a script is told that no batch was prepared; want of memory is no answer to a script.
fn refusal_of(refused: PrepareRefused) -> Option<Refusal>
    ensures { result ≡ refusal_for refused }
{
    match refused {
        PrepareRefused::Memory => None,
        PrepareRefused::Empty => Some(Refusal::Empty),
        PrepareRefused::NoSlot { .. } => Some(Refusal::NoSlot),
        PrepareRefused::NoNodes { .. } => Some(Refusal::NoNodes),
        PrepareRefused::Gone { .. } => Some(Refusal::Gone),
        PrepareRefused::Held { .. } => Some(Refusal::Held),
        PrepareRefused::AlreadyIn { .. } => Some(Refusal::AlreadyIn),
        PrepareRefused::WrongLayer { .. } => Some(Refusal::WrongLayer),
    }
}

/// The ids of bodies.
fn ids_of(alloc: Global, bodies: &[Known]) -> Result<Vec<BodyId>, AllocError>
    ensures { IfOk result (λ ids. ids.items ≡ map (λ known. known.id) bodies.now) }
{
    bodies.iter().map(|known| known.id).collect(alloc)
}

/// Prepares a batch of a layer from these bodies, behind those of a list, and answers why it cannot.
pub(crate) fn prepare_alone<R: Wait>(
    rt: &R,
    alloc: Global,
    world: &World,
    pass: &mut Pass,
    batches: &mut PreparedList,
    layer: u32,
    bodies: &[Known],
) -> Result<Option<Refusal>, AllocError>
    requires lone { IsLone world.now pass.old }
    requires in_layers { layer < world.now.map.layers }
    requires below { All (λ known. known.id.index < world.now.map.bodies) bodies.now }
    requires few { length bodies.now ≤ world.now.map.bodies }
    requires good { AreGood batches.old (view_of pass.old) }
    ensures lone { OnOk result (IsLone world.now pass.new) }
    ensures good { OnOk result (AreGood batches.new (view_of pass.new)) }
    ensures list { IfOk result (ListAfter batches.old batches.new) }
    ensures takes { IfOk result (TakesAlone layer bodies.now batches.old batches.new (view_of pass.old) (view_of pass.new)) }
{
    let ids = ids_of(alloc, bodies)?;
    match batches.prepare(rt, alloc, world, pass, layer, &ids) {
        Ok(()) => Ok(None),
        Err(refused) => match refusal_of(refused) {
            Some(refusal) => Ok(Some(refusal)),
            None => Err(AllocError),
        },
    }
}

/// Adds bodies of a layer, by a batch of their own that is attached at once, and answers why it cannot.
pub(crate) fn add_alone<R: Wait>(
    rt: &R,
    alloc: Global,
    world: &World,
    pass: &mut Pass,
    batches: &mut PreparedList,
    layer: u32,
    bodies: &[Known],
) -> Result<Option<Refusal>, AllocError>
    requires lone { IsLone world.now pass.old }
    requires in_layers { layer < world.now.map.layers }
    requires below { All (λ known. known.id.index < world.now.map.bodies) bodies.now }
    requires few { length bodies.now ≤ world.now.map.bodies }
    requires good { AreGood batches.old (view_of pass.old) }
    ensures lone { OnOk result (IsLone world.now pass.new) }
    ensures good { OnOk result (AreGood batches.new (view_of pass.new)) }
    ensures same { OnOk result (batches_of batches.new ≡ batches_of batches.old) }
    ensures adds { IfOk result (AddsAlone layer bodies.now (view_of pass.old) (view_of pass.new)) }
{
    if let Some(refusal) = prepare_alone(rt, alloc, world, pass, batches, layer, bodies)? {
        return Ok(Some(refusal));
    }
    let place = batches.len() - 1;
    finalize_alone(world, pass, batches, place);
    Ok(None)
}
