//! A batch that is prepared.
ghost use Rattle.std.specs.Prelude.{◌≡◌};

/// A batch whose bodies are held and whose tree is drawn, apart from the trees that others walk.
///
/// It is good for the pass that prepared it. It has to be spent: attached by `finalize`, given up by `abort`, or left.
#[must_use]
pub struct Prepared {
    pub(crate) number: u32,
    pub(crate) layer: u32,
    pub(crate) slot: u32,
    /// The indexes of its bodies, in the order in which they were given.
    pub(crate) indexes: Vec<u32>,
    /// Its nodes, the root first.
    pub(crate) nodes: Vec<u32>,
}

impl Prepared {
    /// The number of the pass that prepared it.
    pub fn pass_number(&self) -> u32
        ensures { result ≡ self.now.number }
    {
        self.number
    }

    /// The layer of its bodies.
    pub fn layer(&self) -> u32
        ensures { result ≡ self.now.layer }
    {
        self.layer
    }

    /// The indexes of its bodies, in the order in which they were given.
    pub fn indexes(&self) -> &[u32]
        ensures { result.now ≡ self.now.indexes.items }
    {
        self.indexes.as_slice()
    }

    /// Leaves it as it is. The bodies stay held, and the slot and the nodes stay with the pass, for good.
    pub fn leave(self) {
        let Prepared {
            number: _number,
            layer: _layer,
            slot: _slot,
            indexes: _indexes,
            nodes: _nodes,
        } = self;
    }
}
