//! Commands on the body of one name, and what is read of bodies.
ghost use Rattle.std.specs.Prelude.{◌≡◌, Option, IfOk, map};
ghost use Rattle.script_player.specs.Body.{body_of, forbids, entry_of, change_named, item_of, read_named, multi_named};
ghost use Rattle.script_player.specs.Shown.{Tries};

use crate::books::Known;
use crate::plain_player::PlainPlayer;
use body_ident::BodyId;
use fixed_box::FixBox;
use reply_text::{MultiItem, MultiList, Refusal, Reply};
use scene_model::{BodyView, Entry, Phase, PlainScene};
use script_text::Text;
use std::alloc::{AllocError, Global};

/// A change of one body.
#[derive(Clone, Copy, Debug)]
pub enum Change {
    /// It leaves the scene.
    Destroy,
    /// It leaves the broad phase.
    Remove,
    /// It gets other bounds.
    Move(FixBox),
    /// It gets another user number.
    SetUser(u32),
}

impl Change {
    /// Why a body in a phase cannot be changed so.
    fn forbids(self, phase: Phase) -> Option<Refusal>
        ensures { result ≡ forbids self phase }
    {
        match (self, phase) {
            (Change::Destroy, Phase::Out) => None,
            (Change::Destroy, _) => Some(Refusal::InUse),
            (Change::Remove, Phase::Out) => Some(Refusal::NotIn),
            (Change::Remove | Change::Move(_), Phase::Held) => Some(Refusal::Held),
            (Change::Remove | Change::Move(_), _) => None,
            (Change::SetUser(_), _) => None,
        }
    }

    /// The entry of the change, for the body at an index.
    fn entry(self, index: u32) -> Entry
        ensures { result ≡ entry_of self index }
    {
        match self {
            Change::Destroy => Entry::Destroy { index },
            Change::Remove => Entry::Remove { index },
            Change::Move(bounds) => Entry::Move { index, bounds },
            Change::SetUser(user) => Entry::SetUser { index, user },
        }
    }
}

/// The body that an id names; `None` where it is gone.
pub fn body_of(scene: &PlainScene, id: BodyId) -> Option<BodyView>
    ensures { result ≡ body_of scene.now id }
{
    let view = scene.at(id.index())?;
    if view.id.seq() == id.seq() {
        Some(view)
    } else {
        None
    }
}

/// What a `multi` says of the body of an id.
fn item_of(scene: &PlainScene, id: BodyId) -> MultiItem
    ensures { result ≡ item_of (body_of scene.now id) }
{
    match body_of(scene, id) {
        Some(view) => MultiItem::User {
            id: view.id,
            user: view.user,
        },
        None => MultiItem::Gone,
    }
}

/// What a `multi` says of these bodies.
fn items_of(
    alloc: Global,
    scene: &PlainScene,
    bodies: &[Known],
) -> Result<Vec<MultiItem>, AllocError>
    ensures { IfOk result (λ items. items.items ≡ map (λ known. item_of (body_of scene.now known.id)) bodies.now) }
{
    bodies
        .iter()
        .map(|known| item_of(scene, known.id))
        .collect(alloc)
}

impl PlainPlayer {
    /// Changes the body that a name stands for, and answers why it cannot.
    pub fn change(&mut self, name: &Text, change: Change) -> Result<Option<Refusal>, AllocError>
        ensures { IfOk result (Tries (change_named self.old change name.now) self.old self.new) }
    {
        let Some(known) = self.books.known(name) else {
            return Ok(Some(Refusal::NoId));
        };
        let Some(body) = body_of(&self.scene, known.id) else {
            return Ok(Some(Refusal::Gone));
        };
        if let Some(refusal) = change.forbids(body.phase) {
            return Ok(Some(refusal));
        }
        self.scene.apply(&change.entry(known.id.index()))?;
        Ok(None)
    }

    /// `read NAME`
    pub fn read(&self, name: &Text) -> Reply
        ensures { result ≡ read_named self.now name.now }
    {
        let Some(known) = self.books.known(name) else {
            return Reply::Refused(Refusal::NoId);
        };
        match body_of(&self.scene, known.id) {
            Some(view) => Reply::Body(view),
            None => Reply::Gone,
        }
    }

    /// `multi NAME..`
    pub fn multi(&self, alloc: Global, names: &[Text]) -> Result<Reply, AllocError>
        ensures { IfOk result (λ reply. reply ≡ multi_named self.now names.now) }
    {
        let Some(bodies) = self.books.known_all(alloc, names)? else {
            return Ok(Reply::Refused(Refusal::NoId));
        };
        Ok(Reply::Multi(MultiList::new(items_of(alloc, &self.scene, &bodies)?)))
    }
}
