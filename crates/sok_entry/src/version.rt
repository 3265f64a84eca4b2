//! The versions of a certificate's text.

/// The version of a certificate's text. Its first line names it.
#[derive(Clone, Copy, PartialEq, Eq)]
pub enum Version {
    /// No entry is a pattern.
    One,
    /// Entries may be patterns.
    Two,
}
