//! What a walk that collects keeps, when it is made by turns.
use crate::finder::Finder;
use crate::walk::Walk;

/// A walk that collects what a shape touches, by turns: it begins, loads one word a turn, and ends. It takes no lock, and
/// neither it nor a turn takes memory.
#[derive(Drop)]
pub struct CollectOp {
    pub(crate) walk: Walk,
    /// What was found so far. It is handed out at the end.
    pub(crate) finder: Option<Finder>,
}
