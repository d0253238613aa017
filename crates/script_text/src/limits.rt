/// The most lines of a script.
pub const MAX_LINES: u32 = 200_000;

/// The most names of one `multi`.
pub const MAX_MULTI: u32 = 64;
