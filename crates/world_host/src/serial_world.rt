//! What a script is played on.
use batch_add::PreparedList;
use pass_table::{Pass, World};
use script_player::Books;
use tree_query::Finder;

/// A shared world with its one pass, and what a script keeps of it. Contracts see it as a table (`table_of`).
#[derive(Drop)]
pub struct SerialWorld {
    pub(crate) world: World,
    pub(crate) pass: Pass,
    /// What finds bodies; it has room for each body of the world.
    pub(crate) finder: Finder,
    pub(crate) books: Books,
    /// The prepared batches of the books, in the same order.
    pub(crate) batches: PreparedList,
    /// How many bodies are live.
    pub(crate) live: u32,
    /// How many of them are in the broad phase.
    pub(crate) inside: u32,
}
