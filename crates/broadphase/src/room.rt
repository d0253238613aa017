ghost use Rattle.std.specs.Prelude.{◌≡◌, true};

/// Where a run leaves what is proved of it: the world that it opened, its passes and its spans.
///
/// No run leaves anything in it yet, so a room is always empty.
#[derive(Debug, Drop)]
pub struct Room;

impl Room {
    /// A room with nothing in it. It takes no memory.
    pub fn new() -> Room {
        Room
    }

    /// Whether nothing is in it.
    pub fn is_empty(&self) -> bool
        ensures { result ≡ true }
    {
        true
    }
}
