use body_ident::BodyId;
use std::marker::Model;

/// What a `multi` says of one name.
#[derive(Clone, Copy, Debug)]
pub enum MultiItem {
    /// The body's id and its user number.
    User { id: BodyId, user: u32 },
    /// The id names no body that is live.
    Gone,
}

/// What a `multi` says of each name, in order. Contracts see it as the list of its items.
#[derive(Debug, Drop)]
pub struct MultiList {
    list: Vec<MultiItem>,
}

impl Model for MultiList {
    ghost use Rattle.std.specs.Prelude.{List};
    ghost use Rattle.reply_text.specs.declared.multi.MultiItem.{MultiItem};

    ghost Value = { List MultiItem };

    ghost view = { λ l. l.list.items };
}

impl MultiList {
    ghost use Rattle.std.specs.Prelude.{◌≡◌};

    /// The list of these items. It takes no memory.
    pub fn new(items: Vec<MultiItem>) -> Self
        ensures { result ≡ items.items }
    {
        MultiList { list: items }
    }

    /// The items, in order.
    pub fn items(&self) -> &[MultiItem]
        ensures { result.now ≡ self.now }
    {
        self.list.as_slice()
    }
}
