//! The job that a command line means.

ghost use Rattle.std.specs.Prelude.{◌≡◌, [], string_bytes};

/// The job that a command line means, with the values in the order of the subcommand's places.
#[derive(Debug, Drop)]
pub enum Job {
    /// The path of a collection.
    List(String),
    /// The path of a collection, the number of a level, from 1, and a text of letters.
    Replay(String, u32, String),
    /// The path of a collection, the number of a level, from 1, and a text of letters, which is
    /// empty if none is given.
    Draw(String, u32, String),
    /// The path of a collection, the number of a level, from 1, the number of pushes that a
    /// solution must stay below, the most states to keep, whether an answer at that limit has a
    /// lower bound, and the path for the certificate.
    Solve(String, u32, Option<u32>, u32, bool, Option<String>),
    /// The path of a collection, the number of a level, from 1, and the path of a certificate.
    Check(String, u32, String),
    /// The path of a book, and the path of a collection.
    Add(String, String),
    /// The path of a book, the id of a level, and a text of letters.
    Offer(String, i64, String),
    /// The path of a book, and the path of a text with lines of offers.
    Offers(String, String),
    /// The path of a book, the id of a level, and the path of a certificate.
    Prove(String, i64, String),
    /// The path of a book, the most states to keep for a level, the first and the last id, and the
    /// path of the folder for the certificates.
    Settle(String, u32, i64, i64, Option<String>),
    /// The path of a book, and the id of a level. `None` stands for all levels.
    Show(String, Option<i64>),
    /// The path of a book, and whether solutions are written too.
    Export(String, bool),
}

/// A command line that means no job: the text to print, and the exit status. The status is 0 for
/// help that was asked for, whose text belongs on the output; 2 for words that are refused; and 6
/// if memory was refused, without a text.
#[derive(Drop)]
pub struct JobRefused {
    pub text: String,
    pub status: u8,
    ghost silent: { status ≡ 6 → string_bytes text ≡ [] },
}
