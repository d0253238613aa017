//! Why a world was not opened.
use word_map::Field;

/// Why a world was not opened.
#[derive(Clone, Copy, Debug, PartialEq, Eq)]
pub enum OpenFault {
    /// The sizes are those of no world; the first field that is out of its limit, as `word_map::check` names it.
    BadConfig { field: Field },
    /// There was no memory.
    Memory,
}
