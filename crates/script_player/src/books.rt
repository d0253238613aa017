//! The books: the names that a script created, and the batches that keep slots and nodes.
ghost use Rattle.std.specs.Prelude.{◌≡◌, ◌<◌, ◌^◌, Option, IfOk, OnOk, option_map, sum_by};
ghost use Rattle.script_player.specs.Books.{no_books, with_name, known_at, known_all, slots_kept, nodes_kept, has_batch, batch_place, batch_named, spent, with_batch, with_attached};

use body_ident::BodyId;
use scene_model::IndexList;
use script_text::{Names, Text};
use std::alloc::{AllocError, Global};
use std::marker::Model;

/// What a name stands for: the id of the body that was created, and the layer of the creation.
#[derive(Clone, Copy, Debug)]
pub struct Known {
    pub id: BodyId,
    pub layer: u32,
}

/// A batch that was prepared and not spent. It keeps a slot of its layer, and its nodes.
#[derive(Debug, Drop)]
pub struct Batch {
    pub name: Text,
    pub layer: u32,
    /// The bodies that it holds, in the order in which they were named.
    pub indexes: IndexList,
    pub nodes: u32,
}

/// A batch that was attached. It keeps a slot of its layer, and its nodes.
#[derive(Clone, Copy, Debug)]
pub struct Attached {
    pub layer: u32,
    pub nodes: u32,
}

/// What a player keeps beside the scene.
///
/// A name is found in a few steps for each doubling of the number of names, whatever they are. Batches are looked
/// through: there are no more of them than the layers have slots.
#[derive(Debug, Drop)]
pub struct Books {
    names: Names,
    /// What each name stands for; nothing where its creation was refused.
    known: Vec<Option<Known>>,
    /// The oldest first.
    prepared: Vec<Batch>,
    attached: Vec<Attached>,
}

impl Model for Books {
    ghost use Rattle.script_player.specs.Books.{Books as View};

    ghost Value = { View };

    ghost use Rattle.script_player.specs.Playing.{books_of};

    ghost view = { books_of };
}

impl Books {
    /// Books with nothing in them.
    pub fn new(alloc: Global) -> Books
        ensures { result ≡ no_books }
    {
        Books {
            names: Names::new(alloc),
            known: Vec::new(alloc),
            prepared: Vec::new(alloc),
            attached: Vec::new(alloc),
        }
    }

    /// Keeps a name that is not kept yet, and what it stands for.
    pub fn keep_name(
        &mut self,
        alloc: Global,
        name: &Text,
        known: Option<Known>,
    ) -> Result<(), AllocError>
        ensures { OnOk result (self.new ≡ with_name self.old name.now known) }
    {
        if self.names.push(alloc, name.items())? {
            self.known.push(known)?;
        }
        Ok(())
    }

    /// What a name stands for.
    pub fn known(&self, name: &Text) -> Option<Known>
        ensures { result ≡ known_at self.now name.now }
    {
        let place = self.names.place(name.items())?;
        self.known.get(place).copied()?
    }

    /// What each of these names stands for; `None` where one stands for nothing.
    #[tactic(auto, using(crate::proofs::Finding::found_none, crate::proofs::Finding::found_more, crate::proofs::Finding::found_stop, crate::proofs::Finding::found_all))]
    pub fn known_all(&self, alloc: Global, names: &[Text]) -> Result<Option<Vec<Known>>, AllocError>
        ensures { IfOk result (λ found. option_map (λ v. v.items) found ≡ known_all self.now names.now) }
    {
        let mut found = Vec::new(alloc);
        for name in names {
            let Some(known) = self.known(name) else {
                return Ok(None);
            };
            found.push(known)?;
        }
        Ok(Some(found))
    }

    /// How many slots of a layer are kept.
    pub fn slots_kept(&self, layer: u32) -> usize
        ensures { result ≡ slots_kept self.now layer }
    {
        let prepared = self.prepared.iter().filter(|b| b.layer == layer).count();
        let attached = self.attached.iter().filter(|a| a.layer == layer).count();
        prepared + attached
    }

    /// How many nodes are kept.
    pub fn nodes_kept(&self) -> u32
        requires { nodes_kept self.now < 2 ^ 32 }
        ensures { result ≡ nodes_kept self.now }
    {
        nodes_of_prepared(&self.prepared) + nodes_of_attached(&self.attached)
    }

    /// Whether a prepared batch has a name.
    pub fn has_batch(&self, name: &Text) -> bool
        ensures { result ≡ has_batch self.now name.now }
    {
        self.prepared.iter().any(|b| b.name.items() == name.items())
    }

    /// Keeps a batch that was prepared.
    pub fn keep_batch(&mut self, batch: Batch) -> Result<(), AllocError>
        ensures { OnOk result (self.new ≡ with_batch self.old batch) }
    {
        self.prepared.push(batch)?;
        Ok(())
    }

    /// Keeps a batch that was attached.
    pub fn attach(&mut self, layer: u32, nodes: u32) -> Result<(), AllocError>
        ensures { OnOk result (self.new ≡ with_attached self.old layer nodes) }
    {
        self.attached.push(Attached { layer, nodes })?;
        Ok(())
    }

    /// The place of the prepared batch that has a name.
    pub fn batch_place(&self, name: &Text) -> Option<usize>
        ensures { result ≡ batch_place self.now name.now }
    {
        self.prepared
            .iter()
            .position(|b| b.name.items() == name.items())
    }

    /// The prepared batch that has a name, which is prepared no more.
    #[tactic(auto, using(crate::proofs::Spending::place_within))]
    pub fn spend(&mut self, name: &Text) -> Option<Batch>
        ensures batch { result ≡ batch_named self.old name.now }
        ensures spent { self.new ≡ spent self.old name.now }
    {
        let place = self.batch_place(name)?;
        Some(self.prepared.remove(place))
    }
}

/// How many nodes batches that are prepared keep.
fn nodes_of_prepared(batches: &[Batch]) -> u32
    requires { sum_by (λ b. b.nodes) batches.now < 2 ^ 32 }
    ensures { result ≡ sum_by (λ b. b.nodes) batches.now }
{
    batches.iter().map(|b| b.nodes).sum()
}

/// How many nodes batches that are attached keep.
fn nodes_of_attached(batches: &[Attached]) -> u32
    requires { sum_by (λ b. b.nodes) batches.now < 2 ^ 32 }
    ensures { result ≡ sum_by (λ b. b.nodes) batches.now }
{
    batches.iter().map(|b| b.nodes).sum()
}
