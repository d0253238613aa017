ghost use Rattle.std.specs.Prelude.{◌≡◌, Bool, ◌≤◌, ◌^◌, ◌+◌, ◌%◌, ◌==◌, ◌&&◌, ◌∷◌, length, IfOk, Ok, Some, None, OnOk, OnErr, option_map, fold, slice_set};
ghost use Rattle.std.specs.Int.{bit_at};
ghost use Rattle.std.specs.Fn.{FnReturnsAt};
ghost use Rattle.fixed_box.specs.declared.fix_box.FixBox.{FixBox};
ghost use Rattle.fixed_box.specs.FixBox.{touches};
ghost use Rattle.scene_model.specs.declared.body_view.Phase.TheVariants.{In};
ghost use Rattle.scene_model.specs.Scene.{Scene, empty_scene, next_index, place_at, record_at};
ghost use Rattle.scene_model.specs.Step.{after_entry, created_in, with_new_body, with_body, with_change, with_phase, IsPossible};
ghost use Rattle.scene_model.specs.Query.{view_at, live_count, in_count, hit_at, hits};
ghost use Rattle.scene_model.specs.Plain.{place_of, record_of};
ghost use Rattle.scene_model.specs.Shown.{shown, shown_place, after_shown};

use crate::body_view::{BodyView, Phase};
use crate::entry::Entry;
use body_ident::BodyId;
use fixed_box::FixBox;
use std::alloc::{AllocError, Global};
use std::marker::Model;

/// Whether the layer is one of the mask: bit k of it stands for layer k.
fn is_in_mask(mask: u8, layer: u32) -> bool
    ensures { result ≡ (bit_at mask layer == 1) }
{
    layer < u8::BITS && (mask >> layer) % 2 == 1
}

/// Whether the bounds pass the test.
fn passes<F: Fn(&FixBox) -> bool>(test: &F, bounds: &FixBox) -> bool
    requires { F.IsAlwaysCallable test.now }
    ensures { FnReturnsAt F.Fn test.now bounds.now result }
{
    test(bounds)
}

/// What is kept of a live body.
#[derive(Clone, Copy, Debug)]
struct Body {
    seq: u8,
    layer: u32,
    bounds: FixBox,
    user: u32,
    phase: Phase,
}

/// What is kept of an index: its creations so far, modulo 256, and the body that is live there.
#[derive(Clone, Copy, Debug)]
struct Slot {
    creations: u8,
    body: Option<Body>,
}

/// The scene as a list: what each entry of a history does, one after another.
///
/// It grows with the indexes that are used. An entry takes the same time in a scene of any size, except for
/// one that names many bodies.
#[derive(Debug, Drop)]
pub struct PlainScene {
    places: Vec<Slot>,
    /// The indexes that are free again, the last destroyed last.
    freed: Vec<u32>,
    bodies: u32,
}

impl Model for PlainScene {
    ghost use Rattle.std.specs.Prelude.{◌≤◌, ◌^◌, map, reverse, vec_len};
    ghost use Rattle.scene_model.specs.Scene.{Scene};
    ghost use Rattle.scene_model.specs.Plain.{place_of};

    ghost Value = { Scene };

    ghost view = { λ s. record { places = map place_of s.places.items; freed = reverse s.freed.items; bodies = s.bodies } };

    ghost invariant = { λ s. (vec_len s.places ≤ s.bodies) × (s.bodies ≤ 2 ^ 23) };
}

impl PlainScene {
    /// The scene in which no body was created yet, with room for so many bodies at a time. It takes no memory.
    pub fn new(alloc: Global, bodies: u32) -> Result<PlainScene, AllocError>
        requires { bodies ≤ 2 ^ 23 }
        ensures { result ≡ Ok (empty_scene bodies) }
    {
        Ok(PlainScene {
            places: Vec::new(alloc),
            freed: Vec::new(alloc),
            bodies,
        })
    }

    /// The index that the next body takes: the one that was destroyed last and not used since, else the least
    /// that was never used. None where every index is live.
    pub fn next_index(&self) -> Option<u32>
        ensures { result ≡ next_index self.now }
    {
        if let Some(index) = self.freed.last() {
            return Some(*index);
        }
        let used = self.places.len() as u32;
        if used < self.bodies { Some(used) } else { None }
    }

    /// The sequence number of the next body that is created at the index.
    pub fn next_seq(&self, index: u32) -> u8
        ensures { result ≡ ((place_at self.now index).creations + 1) % 256 }
    {
        let creations = self
            .places
            .get(index as usize)
            .map_or(0, |slot| slot.creations);
        creations.wrapping_add(1)
    }

    /// The body that is live at the index, and None where none is.
    pub fn at(&self, index: u32) -> Option<BodyView>
        ensures { result ≡ view_at self.now index }
    {
        let slot = self.places.get(index as usize)?;
        let body = slot.body?;
        Some(BodyView {
            id: BodyId::new(index, body.seq),
            layer: body.layer,
            bounds: body.bounds,
            user: body.user,
            phase: body.phase,
        })
    }

    /// Adds an entry that is lawful in the scene; the layer of a creation may be any. After an error the scene
    /// is as it was.
    pub fn apply(&mut self, entry: &Entry) -> Result<(), AllocError>
        requires { IsPossible self.old entry.now }
        ensures ok { OnOk result (self.new ≡ after_shown self.old entry.now) }
        ensures follows { OnOk result ((scene : Scene) → self.old ≡ shown scene → self.new ≡ shown (after_entry scene entry.now)) }
        ensures err { OnErr result (self.new ≡ self.old) }
    {
        self.step(entry)
    }

    /// Adds an entry, each kind in its own way.
    fn step(&mut self, entry: &Entry) -> Result<(), AllocError>
        requires { IsPossible self.old entry.now }
        ensures ok { OnOk result (self.new ≡ after_shown self.old entry.now) }
        ensures err { OnErr result (self.new ≡ self.old) }
    {
        match entry {
            Entry::Create {
                index,
                layer,
                bounds,
                user,
            } => return self.create(*index, *layer, *bounds, *user),
            Entry::Destroy { index } => return self.destroy(*index),
            Entry::Mark { index } => self.set_phase(*index, Phase::Held),
            Entry::Unmark { index } => self.set_phase(*index, Phase::Out),
            Entry::Join { layer: _, indexes } => self.join(indexes.items()),
            Entry::Remove { index } => self.set_phase(*index, Phase::Out),
            Entry::Move { index, bounds } => self.set_bounds(*index, *bounds),
            Entry::SetUser { index, user } => self.set_user(*index, *user),
        }
        Ok(())
    }

    /// How many indexes were ever used. Each live body stands at one of them.
    pub fn used(&self) -> u32
        ensures { result ≡ length self.now.places }
    {
        self.places.len() as u32
    }

    /// How many bodies are live.
    pub fn live_count(&self) -> u32
        ensures { result ≡ live_count self.now }
    {
        self.places.iter().filter(|s| s.body.is_some()).count() as u32
    }

    /// How many bodies are in the broad phase.
    pub fn in_count(&self) -> u32
        ensures { result ≡ in_count self.now }
    {
        self.places
            .iter()
            .filter(|s| s.body.is_some_and(|b| b.phase.is_in()))
            .count() as u32
    }

    /// The ids of the bodies in the broad phase that are in a layer of the mask and whose bounds pass a test,
    /// ascending by index. Bit k of the mask stands for layer k.
    pub fn hits_where<F: Fn(&FixBox) -> bool>(
        &self,
        alloc: Global,
        mask: u8,
        test: F,
    ) -> Result<Vec<BodyId>, AllocError>
        requires { F.IsAlwaysCallable test }
        // at each function that the test computes
        ensures { IfOk result (λ v. (t : FixBox → Bool) → ((b : FixBox) (r : Bool) → FnReturnsAt F.Fn test b r → r ≡ t b)
            → v.items ≡ hits t mask self.now) }
    {
        let mut found = Vec::new(alloc);
        for index in 0..self.used() {
            if let Some(id) = self.hit(index, mask, &test) {
                found.push(id)?;
            }
        }
        Ok(found)
    }

    /// The same of the bodies whose bounds touch a box.
    pub fn hits(&self, alloc: Global, mask: u8, bounds: &FixBox) -> Result<Vec<BodyId>, AllocError>
        ensures { IfOk result (λ v. v.items ≡ hits (touches bounds.now) mask self.now) }
    {
        self.hits_where(alloc, mask, |b| bounds.touches(b))
    }

    /// The id of the body at the index, if it is a hit.
    fn hit<F: Fn(&FixBox) -> bool>(&self, index: u32, mask: u8, test: &F) -> Option<BodyId>
        requires { F.IsAlwaysCallable test.now }
        ensures { (t : FixBox → Bool) → ((b : FixBox) (r : Bool) → FnReturnsAt F.Fn test.now b r → r ≡ t b)
            → result ≡ hit_at t mask self.now index }
    {
        let body = self.at(index)?;
        if !body.phase.is_in() || !is_in_mask(mask, body.layer) {
            return None;
        }
        passes(test, &body.bounds).then_some(body.id)
    }

    /// The body at the index, as it is kept.
    fn body(&self, index: u32) -> Option<Body>
        ensures { option_map record_of result ≡ record_at self.now index }
    {
        self.places.get(index as usize)?.body
    }

    /// Puts another body, or none, where one is live.
    fn put(&mut self, index: u32, body: Option<Body>)
        ensures { self.new ≡ with_body self.old index (option_map record_of body) }
    {
        if let Some(slot) = self.places.get(index as usize).copied() {
            self.write(index, Slot { body, ..slot });
        }
    }

    /// Writes the slot of an index that was used before.
    fn write(&mut self, index: u32, slot: Slot)
        ensures { self.new ≡ record self.old { places = slice_set self.old.places index (place_of slot) } }
    {
        let place = index as usize;
        if place < self.places.len() {
            self.places[place] = slot;
        }
    }

    /// Puts the body at the index into another phase.
    fn set_phase(&mut self, index: u32, phase: Phase)
        ensures { self.new ≡ with_phase phase self.old index }
    {
        let body = self.body(index).map(|b| Body { phase, ..b });
        self.put(index, body);
    }

    /// Gives the body at the index other bounds.
    fn set_bounds(&mut self, index: u32, bounds: FixBox)
        ensures { self.new ≡ with_change (λ r. record r { bounds = bounds }) self.old index }
    {
        let body = self.body(index).map(|b| Body { bounds, ..b });
        self.put(index, body);
    }

    /// Gives the body at the index another user number.
    fn set_user(&mut self, index: u32, user: u32)
        ensures { self.new ≡ with_change (λ r. record r { user = user }) self.old index }
    {
        let body = self.body(index).map(|b| Body { user, ..b });
        self.put(index, body);
    }

    /// Puts the bodies at all these indexes into the broad phase.
    fn join(&mut self, indexes: &[u32])
        ensures { self.new ≡ fold (with_phase In) self.old indexes.now }
    {
        for index in indexes {
            self.set_phase(*index, Phase::In);
        }
    }

    /// The slot of the index after one creation more.
    fn created(&self, index: u32, layer: u32, bounds: FixBox, user: u32) -> Slot
        ensures { place_of result ≡ shown_place (created_in (place_at self.now index) layer bounds user) }
    {
        let seq = self.next_seq(index);
        Slot {
            creations: seq,
            body: Some(Body {
                seq,
                layer,
                bounds,
                user,
                phase: Phase::Out,
            }),
        }
    }

    /// Creates a body at the index, which is the next one.
    fn create(
        &mut self,
        index: u32,
        layer: u32,
        bounds: FixBox,
        user: u32,
    ) -> Result<(), AllocError>
        requires { next_index self.old ≡ Some index }
        ensures ok { OnOk result (self.new ≡ with_new_body self.old.freed self.old index (shown_place (created_in (place_at self.old index) layer bounds user))) }
        ensures err { OnErr result (self.new ≡ self.old) }
    {
        let slot = self.created(index, layer, bounds, user);
        match self.freed.pop() {
            Some(_) => self.write(index, slot),
            None => self.places.push(slot)?,
        }
        Ok(())
    }

    /// Takes the body at the index out of the scene.
    fn destroy(&mut self, index: u32) -> Result<(), AllocError>
        ensures ok { OnOk result (self.new ≡ record (with_body self.old index None) { freed = index ∷ self.old.freed }) }
        ensures err { OnErr result (self.new ≡ self.old) }
    {
        self.freed.push(index)?;
        self.put(index, None);
        Ok(())
    }
}
