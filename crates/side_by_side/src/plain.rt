//! The plain side: a plain scene, with counts of slots and nodes in use.
ghost use Rattle.std.specs.Prelude.{◌<◌, ◌≤◌, ◌≡◌, [], ◌∷◌, length, Some, IfOk, IfSome};
ghost use Rattle.scene_model.specs.declared.body_view.Phase.TheVariants.{Held};
ghost use Rattle.scene_model.specs.Query.{view_at};
ghost use Rattle.scene_model.specs.Step.{HasBody};

use crate::answers::{Answer, Refusal};
use body_ident::BodyId;
use fixed_box::{FixBox, Shape};
use scene_model::{BodyView, Entry, IndexList, Phase, PlainScene};
use shape_test::touch;
use std::alloc::{AllocError, Global};
use tree_plan::need;
use word_map::{PhaseWord, SlotWord, StateWord};

/// How many bodies can be live at once.
pub(crate) const BODIES: u32 = 64;

/// How many slots a layer has.
pub(crate) const SLOTS: u32 = 64;

/// How many nodes batches can use.
pub(crate) const NODES: u32 = 4096;

/// A plain scene, and how many slots of each layer are in use. It answers each call as the shared world is to answer it.
#[derive(Drop)]
pub(crate) struct Plain {
    alloc: Global,
    scene: PlainScene,
    slots: [u32; 8],
}

/// The word of a slot that the one pass prepares a batch for.
fn held_word() -> u64 {
    SlotWord::Reserved { pass: 0 }.to_word()
}

/// The list of one index.
fn only(alloc: Global, index: u32) -> Result<IndexList, AllocError>
    ensures { IfOk result (λ list. list ≡ index ∷ []) }
{
    let mut indexes = Vec::new(alloc);
    indexes.push(index)?;
    Ok(IndexList::new(indexes))
}

impl Plain {
    /// A scene of no bodies.
    pub(crate) fn new(alloc: Global) -> Result<Plain, AllocError> {
        Ok(Plain {
            alloc,
            scene: PlainScene::new(alloc, BODIES)?,
            slots: [0; 8],
        })
    }

    /// The sequence number of the last body that was created at an index, 0 where there was none.
    pub(crate) fn last_seq(&self, index: u32) -> u8 {
        self.scene.next_seq(index).wrapping_sub(1)
    }

    /// The id of the first body, from an index on and around, that is out and in a layer; where there is none, that of the last
    /// body at the index.
    pub(crate) fn out_from(&self, layer: u32, from: u32) -> BodyId
        requires { from < 64 }
        ensures { result.index < 64 }
    {
        for step in 0..BODIES {
            let index = (from + step) % BODIES;
            if let Some(body) = self.scene.at(index)
                && body.phase == Phase::Out
                && body.layer == layer
            {
                return BodyId::new(index, body.id.seq());
            }
        }
        BodyId::new(from, self.last_seq(from))
    }

    /// The state word of an index.
    fn state(&self, index: u32) -> u64 {
        let sequence = self.last_seq(index);
        match self.scene.at(index) {
            Some(_) => StateWord::Live { sequence }.to_word(),
            None => StateWord::Free { sequence }.to_word(),
        }
    }

    /// The body that an id names, `None` where it is gone.
    fn body(&self, id: BodyId) -> Option<BodyView>
        ensures { IfSome result (λ view. view_at self.now.scene id.index ≡ Some view) }
    {
        let view = self.scene.at(id.index())?;
        (view.id.seq() == id.seq()).then_some(view)
    }

    /// The refusal of an id at a place in a list that names no live body.
    fn gone(&self, id: BodyId, at: u32) -> Refusal {
        Refusal::Gone {
            at,
            state: self.state(id.index()),
        }
    }

    /// Creates a body.
    pub(crate) fn create(
        &mut self,
        layer: u32,
        bounds: FixBox,
        user: u32,
    ) -> Result<Answer, AllocError> {
        match self.scene.next_index() {
            Some(index) if index < BODIES => {
                let id = BodyId::new(index, self.scene.next_seq(index));
                self.scene.apply(&Entry::Create {
                    index,
                    layer,
                    bounds,
                    user,
                })?;
                Ok(Answer::Id(id))
            }
            _ => Ok(Answer::Refused(Refusal::Full { head: 0 })),
        }
    }

    /// Destroys a body.
    pub(crate) fn destroy(&mut self, id: BodyId) -> Result<Answer, AllocError> {
        let Some(body) = self.body(id) else {
            return Ok(Answer::Refused(self.gone(id, 0)));
        };
        match body.phase {
            Phase::Out => {
                self.scene.apply(&Entry::Destroy { index: id.index() })?;
                Ok(Answer::Done)
            }
            phase => Ok(Answer::Refused(Refusal::InUse { phase })),
        }
    }

    /// Takes a body out of the broad phase.
    pub(crate) fn remove(&mut self, id: BodyId) -> Result<Answer, AllocError> {
        let Some(body) = self.body(id) else {
            return Ok(Answer::Refused(self.gone(id, 0)));
        };
        match body.phase {
            Phase::Out => Ok(Answer::Refused(Refusal::NotIn {
                phase: PhaseWord::Out.to_word(),
            })),
            Phase::Held => Ok(Answer::Refused(Refusal::Held {
                at: 0,
                slot: held_word(),
            })),
            Phase::In => {
                self.scene.apply(&Entry::Remove { index: id.index() })?;
                Ok(Answer::Done)
            }
        }
    }

    /// Gives a body another box.
    pub(crate) fn move_body(&mut self, id: BodyId, to: FixBox) -> Result<Answer, AllocError> {
        let Some(body) = self.body(id) else {
            return Ok(Answer::Refused(self.gone(id, 0)));
        };
        match body.phase {
            Phase::Held => Ok(Answer::Refused(Refusal::Held {
                at: 0,
                slot: held_word(),
            })),
            Phase::Out | Phase::In => {
                self.scene.apply(&Entry::Move {
                    index: id.index(),
                    bounds: to,
                })?;
                Ok(Answer::Done)
            }
        }
    }

    /// Gives a body another user number.
    pub(crate) fn set_user(&mut self, id: BodyId, user: u32) -> Result<Answer, AllocError> {
        if self.body(id).is_none() {
            return Ok(Answer::Refused(self.gone(id, 0)));
        }
        self.scene.apply(&Entry::SetUser {
            index: id.index(),
            user,
        })?;
        Ok(self.view(id))
    }

    /// What a body is.
    pub(crate) fn view(&self, id: BodyId) -> Answer {
        match self.body(id) {
            Some(view) => Answer::Seen(view),
            None => Answer::Refused(self.gone(id, 0)),
        }
    }

    /// Why the body of an id at a place in a list cannot be marked for a batch of a layer.
    fn unmarkable(&self, layer: u32, id: BodyId, at: u32) -> Option<Refusal> {
        let Some(body) = self.body(id) else {
            return Some(self.gone(id, at));
        };
        match body.phase {
            Phase::Held => Some(Refusal::Held {
                at,
                slot: held_word(),
            }),
            Phase::In => Some(Refusal::AlreadyIn { at }),
            Phase::Out if body.layer == layer => None,
            Phase::Out => Some(Refusal::WrongLayer {
                at,
                layer: u64::from(body.layer),
            }),
        }
    }

    /// Marks a body that is out.
    fn mark(&mut self, index: u32) -> Result<(), AllocError> {
        if let Some(body) = self.scene.at(index)
            && body.phase == Phase::Out
        {
            self.scene.apply(&Entry::Mark { index })?;
        }
        Ok(())
    }

    /// Lets a body that is held go.
    fn unmark(&mut self, index: u32) -> Result<(), AllocError> {
        if let Some(body) = self.scene.at(index)
            && body.phase == Phase::Held
        {
            self.scene.apply(&Entry::Unmark { index })?;
        }
        Ok(())
    }

    /// Brings a body that is held into the broad phase.
    fn join(&mut self, index: u32) -> Result<(), AllocError> {
        let Some(body) = self.scene.at(index) else {
            return Ok(());
        };
        match body.phase {
            Phase::Held => self.join_held(index, body.layer),
            _ => Ok(()),
        }
    }

    /// Brings the body at an index, which is held and in this layer, into the broad phase.
    fn join_held(&mut self, index: u32, layer: u32) -> Result<(), AllocError>
        requires { HasBody self.old.scene index (λ r. (r.phase ≡ Held) × (r.layer ≡ layer)) }
    {
        let indexes = only(self.alloc, index)?;
        self.scene.apply(&Entry::Join { layer, indexes })
    }

    /// Marks the bodies of some ids, in order, up to the first that cannot be, and answers which one that is and why.
    fn mark_all(&mut self, layer: u32, ids: &[BodyId]) -> Result<Option<Refusal>, AllocError>
        requires { length ids.now ≤ 4 }
    {
        for at in 0..ids.len() {
            let id = ids[at];
            if let Some(refusal) = self.unmarkable(layer, id, at as u32) {
                self.unmark_ids(&ids[..at])?;
                return Ok(Some(refusal));
            }
            self.mark(id.index())?;
        }
        Ok(None)
    }

    /// Lets the bodies of some ids go.
    fn unmark_ids(&mut self, ids: &[BodyId]) -> Result<(), AllocError> {
        for id in ids {
            self.unmark(id.index())?;
        }
        Ok(())
    }

    /// How many nodes are free: each batch of up to four bodies has one.
    fn free_nodes(&self) -> u32 {
        let mut free = NODES;
        for used in &self.slots {
            free = free.saturating_sub(*used);
        }
        free
    }

    /// Why there is no room in a layer for a batch that needs so many nodes.
    fn no_room(&self, layer: u32, need: u32) -> Option<Refusal>
        requires { layer < 8 }
    {
        let used = self.slots[layer as usize];
        let free = self.free_nodes();
        if used >= SLOTS {
            Some(Refusal::NoSlot { used })
        } else if free < need {
            Some(Refusal::NoNodes { need, free })
        } else {
            None
        }
    }

    /// Prepares a batch.
    pub(crate) fn prepare(&mut self, layer: u32, ids: &[BodyId]) -> Result<Answer, AllocError>
        requires in_layers { layer < 8 }
        requires few { length ids.now ≤ 4 }
    {
        if ids.is_empty() {
            return Ok(Answer::Refused(Refusal::Empty));
        }
        if let Some(refusal) = self.no_room(layer, need(ids.len() as u32)) {
            return Ok(Answer::Refused(refusal));
        }
        if let Some(refusal) = self.mark_all(layer, ids)? {
            return Ok(Answer::Refused(refusal));
        }
        self.slots[layer as usize] = self.slots[layer as usize].wrapping_add(1);
        Ok(Answer::Done)
    }

    /// Attaches a batch of these bodies.
    pub(crate) fn finalize(&mut self, indexes: &[u32]) -> Result<Answer, AllocError> {
        for index in indexes {
            self.join(*index)?;
        }
        Ok(Answer::Done)
    }

    /// Gives a batch of these bodies up.
    pub(crate) fn abort(&mut self, layer: u32, indexes: &[u32]) -> Result<Answer, AllocError> {
        for index in indexes {
            self.unmark(*index)?;
        }
        if let Some(used) = self.slots.get_mut(layer as usize) {
            *used = used.wrapping_sub(1);
        }
        Ok(Answer::Done)
    }

    /// The ids of the bodies in the broad phase, in the layers of a mask, that touch a shape, ascending by index.
    pub(crate) fn hits(&self, mask: u8, shape: &Shape) -> Result<Vec<BodyId>, AllocError> {
        self.scene.hits_where(self.alloc, mask, |b| touch(shape, b))
    }
}
