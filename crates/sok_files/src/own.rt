//! A file that a run has open beside its certificates. No certificate is written into it.

ghost use Rattle.std.specs.Prelude.{◌≡◌};

use std::fmt::InlineText;
use std::io;

/// The collection or the book of a run: its path, and its name in an error message.
#[derive(Clone, Copy)]
pub struct Own<'a> {
    pub path: &'a str,
    pub name: &'static str,
}

impl<'a> Own<'a> {
    /// Returns the collection at a path.
    pub fn collection(path: &'a str) -> Own<'a>
        ensures { result.path.now ≡ path.now }
    {
        Own {
            path,
            name: "the collection",
        }
    }

    /// Returns the book in the database at a path.
    pub fn book(path: &'a str) -> Own<'a>
        ensures { result.path.now ≡ path.now }
    {
        Own {
            path,
            name: "the book",
        }
    }

    /// Returns the error for writing anything else into this file.
    pub(crate) fn error(&self) -> io::Error {
        let name = self.name;
        io::Error::other(InlineText::<40>::of(format_args!("{name} is in this file")).as_str())
    }
}
