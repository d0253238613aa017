//! How a batch takes the bodies that it is to add.
ghost use Rattle.std.specs.Prelude.{◌≡◌, ◌≤◌, ℕ, Option, List, IfOk, OnOk, MatchResult, Some, None, nat_lt, if◌then◌else◌, length, fold};
ghost use Rattle.scene_model.specs.Need.{need};
ghost use Rattle.scene_model.specs.Shown.{after_shown};
ghost use Rattle.word_map.specs.declared.config.TheConstants.{MAX_NODES};
ghost use Rattle.script_player.specs.Taking.{room_refusal, mark_refusal, marking, taking, unmarks};
ghost use Rattle.script_player.specs.UnderWay.{IsUnderWay, ArePossible};
ghost use Rattle.script_player.specs.Shown.{Marks, Takes};

use crate::bodies::body_of;
use crate::books::Known;
use crate::plain_player::PlainPlayer;
use body_ident::BodyId;
use reply_text::Refusal;
use scene_model::{Entry, IndexList, Phase, PlainScene};
use std::alloc::{AllocError, Global};
use tree_plan::{MAX_TREE_BODIES, need};

/// What a batch took: the indexes of its bodies, and how many nodes it keeps.
#[derive(Debug, Drop)]
pub struct Taken {
    pub indexes: IndexList,
    pub nodes: u32,
}

/// How many nodes the tree over so many bodies has; `None` where these are more than are free, as those over more
/// bodies than one tree may have always are.
#[tactic(auto, using(crate::proofs::LargeTrees::too_many))]
fn nodes_within(count: usize, free: u32) -> Option<u32>
    requires { free ≤ MAX_NODES }
    ensures { result ≡ (if nat_lt free (need count) then None else Some (need count)) }
{
    if count > MAX_TREE_BODIES as usize {
        return None;
    }
    let nodes = need(count as u32);
    if free < nodes { None } else { Some(nodes) }
}

/// Why a batch of a layer cannot take a body.
fn mark_refusal(scene: &PlainScene, layer: u32, id: BodyId) -> Option<Refusal>
    ensures { result ≡ mark_refusal scene.now layer id }
{
    let Some(body) = body_of(scene, id) else {
        return Some(Refusal::Gone);
    };
    match body.phase {
        Phase::Held => Some(Refusal::Held),
        Phase::In => Some(Refusal::AlreadyIn),
        Phase::Out if body.layer == layer => None,
        Phase::Out => Some(Refusal::WrongLayer),
    }
}

/// Marks bodies one after another, up to the first that is refused: the indexes of those that it marked, and why
/// the next one is refused.
#[tactic(auto, using(crate::proofs::Marking::marked_none, crate::proofs::Marking::can_mark, crate::proofs::Marking::marked_more, crate::proofs::Marking::marked_stop, crate::proofs::Marking::marked_all))]
fn mark(
    alloc: Global,
    scene: &mut PlainScene,
    layer: u32,
    bodies: &[Known],
) -> Result<(Vec<u32>, Option<Refusal>), AllocError>
    ensures { IfOk result (λ r. Marks (marking scene.old layer bodies.now) scene.old scene.new r.0.items r.1) }
{
    let mut indexes = Vec::new(alloc);
    for known in bodies {
        let index = known.id.index();
        if let Some(refusal) = mark_refusal(scene, layer, known.id) {
            return Ok((indexes, Some(refusal)));
        }
        scene.apply(&Entry::Mark { index })?;
        indexes.push(index)?;
    }
    Ok((indexes, None))
}

/// Lets bodies go that were marked.
#[tactic(auto, using(crate::proofs::Marking::unmarked_none, crate::proofs::Marking::can_unmark, crate::proofs::Marking::unmarked_more, crate::proofs::Marking::unmarked_all))]
pub fn unmark(scene: &mut PlainScene, indexes: &[u32]) -> Result<(), AllocError>
    requires { ArePossible scene.old (unmarks indexes.now) }
    ensures { OnOk result (scene.new ≡ fold after_shown scene.old (unmarks indexes.now)) }
{
    for index in indexes {
        scene.apply(&Entry::Unmark { index: *index })?;
    }
    Ok(())
}

impl PlainPlayer {
    /// How many nodes a batch of so many bodies in a layer keeps, or why there can be none.
    fn room(&self, layer: u32, count: usize) -> Result<u32, Refusal>
        requires { IsUnderWay self.now }
        ensures { MatchResult result (λ nodes. (room_refusal self.now layer count ≡ None) × (nodes ≡ need count)) (λ r. room_refusal self.now layer count ≡ Some r) }
    {
        if count == 0 {
            return Err(Refusal::Empty);
        }
        if self.world.slots as usize <= self.books.slots_kept(layer) {
            return Err(Refusal::NoSlot);
        }
        let free = self.world.nodes - self.books.nodes_kept();
        match nodes_within(count, free) {
            Some(nodes) => Ok(nodes),
            None => Err(Refusal::NoNodes),
        }
    }

    /// Takes bodies for a batch of a layer, or answers why it cannot; then none of them is taken.
    pub fn take(
        &mut self,
        alloc: Global,
        layer: u32,
        bodies: &[Known],
    ) -> Result<Result<Taken, Refusal>, AllocError>
        requires { IsUnderWay self.old }
        ensures { IfOk result (Takes (taking self.old layer bodies.now) (need (length bodies.now)) self.old self.new) }
    {
        let nodes = match self.room(layer, bodies.len()) {
            Ok(nodes) => nodes,
            Err(refusal) => return Ok(Err(refusal)),
        };
        let (indexes, refusal) = mark(alloc, &mut self.scene, layer, bodies)?;
        if let Some(refusal) = refusal {
            unmark(&mut self.scene, &indexes)?;
            return Ok(Err(refusal));
        }
        Ok(Ok(Taken {
            indexes: IndexList::new(indexes),
            nodes,
        }))
    }
}
