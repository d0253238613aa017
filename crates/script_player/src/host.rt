//! What a script is played on.
use reply_text::Reply;
use script_text::Command;
use std::alloc::AllocError;

/// Carries the commands of a script out, one after another: on a plain scene, or on a shared world.
///
/// What a host keeps between two commands is told by tables: the sizes of its world, the scene, and the names and batches.
pub trait Host {
    ghost use Rattle.std.specs.Prelude.{◌≡◌, IfOk};
    ghost use Rattle.scene_model.specs.Query.{live_count, in_count};
    ghost use Rattle.script_player.specs.Table.{Table};
    ghost use Rattle.script_player.specs.Hosts.{IsAnswered, IsToldFor};

    // The host is told by the table.
    ghost shows: { Self → Table → Type 0 };

    /// Carries a command out, and answers it as it is answered on the table by which the host is told.
    ///
    /// A layer that the command names is one of the world's, and a batch is asked to take no more bodies than the world has room
    /// for. After an error the host is not used again.
    fn command(&mut self, command: &Command) -> Result<Reply, AllocError>
        requires told { IsToldFor shows self.old command.now }
        ensures answered { IfOk result (IsAnswered shows command.now self.old self.new) };

    /// How many bodies are live, and how many of them are in the broad phase.
    fn counts(&self) -> (u32, u32)
        ensures live { (table : Table) → shows self.now table → result.0 ≡ live_count table.scene }
        ensures inside { (table : Table) → shows self.now table → result.1 ≡ in_count table.scene };
}
