use std::alloc::{AllocError, Global};
use std::marker::Model;

/// A name of a script. Contracts see it as its bytes.
#[derive(Debug, Drop)]
pub struct Text {
    bytes: Vec<u8>,
}

impl Model for Text {
    ghost use Rattle.std.specs.Prelude.{List, ℕ};

    ghost Value = { List ℕ };

    ghost view = { λ t. t.bytes.items };
}

impl Text {
    ghost use Rattle.std.specs.Prelude.{◌≡◌, IfOk};

    /// The text of these bytes. It takes no memory.
    pub fn new(items: Vec<u8>) -> Self
        ensures { result ≡ items.items }
    {
        Text { bytes: items }
    }

    /// A text of its own with these bytes.
    pub fn from_slice(alloc: Global, bytes: &[u8]) -> Result<Self, AllocError>
        ensures { IfOk result (λ text. text ≡ bytes.now) }
    {
        Ok(Text {
            bytes: Vec::from_slice(alloc, bytes)?,
        })
    }

    /// The bytes.
    pub fn items(&self) -> &[u8]
        ensures { result.now ≡ self.now }
    {
        self.bytes.as_slice()
    }
}

/// Names, in order. Contracts see it as the list of their texts.
#[derive(Debug, Drop)]
pub struct TextList {
    texts: Vec<Text>,
}

impl Model for TextList {
    ghost use Rattle.std.specs.Prelude.{List, ℕ};

    ghost Value = { List (List ℕ) };

    ghost view = { λ t. t.texts.items };
}

impl TextList {
    ghost use Rattle.std.specs.Prelude.{◌≡◌};

    /// The list of these texts. It takes no memory.
    pub fn new(items: Vec<Text>) -> Self
        ensures { result ≡ items.items }
    {
        TextList { texts: items }
    }

    /// The texts, in order.
    pub fn items(&self) -> &[Text]
        ensures { result.now ≡ self.now }
    {
        self.texts.as_slice()
    }
}
