ghost use Rattle.std.specs.Prelude.{◌≡◌};
ghost use Rattle.scene_model.specs.Phase.{is_in};

use body_ident::BodyId;
use fixed_box::FixBox;

/// Where a body is in its life in the broad phase.
#[derive(Clone, Copy, Debug, PartialEq, Eq)]
pub enum Phase {
    /// It is created and no query finds it.
    Out,
    /// A batch holds it, to add it; no query finds it.
    Held,
    /// It is in the broad phase, where queries find it.
    In,
}

impl Phase {
    /// Whether it is in the broad phase.
    pub fn is_in(self) -> bool
        ensures { result ≡ is_in self }
    {
        matches!(self, Phase::In)
    }
}

/// A live body as a reader sees it.
#[derive(Clone, Copy, Debug, PartialEq, Eq)]
pub struct BodyView {
    pub id: BodyId,
    pub layer: u32,
    /// In 1/1024 metre.
    pub bounds: FixBox,
    /// A number that the caller chose, of which nothing here depends.
    pub user: u32,
    pub phase: Phase,
}
