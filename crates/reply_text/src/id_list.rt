use body_ident::BodyId;
use std::marker::Model;

/// Ids of bodies, in order. Contracts see it as their list.
#[derive(Debug, Drop)]
pub struct IdList {
    ids: Vec<BodyId>,
}

impl Model for IdList {
    ghost use Rattle.std.specs.Prelude.{List};
    ghost use Rattle.body_ident.specs.Id.{Id};

    ghost Value = { List Id };

    ghost view = { λ l. l.ids.items };
}

impl IdList {
    ghost use Rattle.std.specs.Prelude.{◌≡◌};

    /// The list of these ids. It takes no memory.
    pub fn new(items: Vec<BodyId>) -> Self
        ensures { result ≡ items.items }
    {
        IdList { ids: items }
    }

    /// The ids, in order.
    pub fn items(&self) -> &[BodyId]
        ensures { result.now ≡ self.now }
    {
        self.ids.as_slice()
    }
}
