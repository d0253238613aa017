//! What a query by turns keeps.
use crate::checks::Checks;
use crate::finder::Finder;
use crate::walk::Walk;

/// A query by turns: a walk that collects what a shape touches, and then the check of each candidate under its stripe,
/// ascending by index. Neither it nor a turn takes memory.
///
/// Its labels are those of the walk: `slots`, 0, `root`, 1, and `walked`, 2, at which no candidate was checked.
#[derive(Drop)]
pub struct QueryOp {
    pub(crate) walk: Walk,
    pub(crate) checks: Checks,
    /// What was found so far. It is handed out at the end.
    pub(crate) finder: Option<Finder>,
}
