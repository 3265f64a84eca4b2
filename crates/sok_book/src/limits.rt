//! How large a book may be.

/// The greatest number of levels in a book.
pub const LEVEL_LIMIT: u32 = 10_000;
