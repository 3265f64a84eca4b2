//! The subcommands, with their help.

ghost use Rattle.std.specs.Prelude.{◌≡◌, IfOk, fold};
ghost use Rattle.sok_words.specs.Shapes.{Builds, own_app, sok_app, sok_top, with_own};

use crate::place::{
    BELOW, BOUND, CERT, CERTS, DB, FILE, FROM, ID, LETTERS, LIMIT, N, OFFERS, OUTPUT, Place, SHOWN,
    SOLUTIONS, TEXT, TO,
};
use clap::Command;
use std::alloc::{AllocError, Global};

/// A subcommand: what it does, what it writes, and its places and options in order.
#[derive(Clone, Copy)]
pub(crate) struct Subcommand {
    name: &'static str,
    about: &'static str,
    writes: &'static str,
    places: &'static [Place],
}

impl Subcommand {
    /// Returns the parser's command for this subcommand alone.
    pub(crate) fn command<'a>(&self, alloc: Global) -> Result<Command<'a>, AllocError>
        ensures { IfOk result (Builds (own_app self.now.name.now self.now.places.now)) }
    {
        let mut command = Command::new(alloc, self.name)
            .about(self.about)
            .after_help(self.writes);
        for place in self.places {
            command = command.arg(place.arg(alloc))?;
        }
        Ok(command)
    }
}

/// Returns the subcommands in the order of the help.
pub(crate) fn subcommands() -> [Subcommand; 12]
    ensures { fold with_own sok_top result ≡ sok_app }
{
    [
        Subcommand {
            name: "list",
            about: "Lists the levels of a collection",
            writes: "\
Writes a line for each level (status 0, even if levels are faulty):
  N ROWS COLS BOXES GOALS TITLE  rows and columns without floor at row ends; all
                                 boxes and goals, even outside the walls
  N fault NUMBER NAME ..         the level is faulty
Faults of the file are status 3, 5 or 6.

Example: sok list small.xsb",
            places: &[FILE],
        },
        Subcommand {
            name: "replay",
            about: "Plays a solution on a level",
            writes: "\
Writes one line:
  solved PUSHES MOVES  after the last letter all boxes are on goals (status 0)
  open PUSHES MOVES    some box is not on a goal (status 1)
MOVES counts all letters, pushes included. Blanks are skipped. An illegal
letter is fault 12 Blocked (status 3). Other faults are status 3, 5 or 6.

Example: sok replay small.xsb 1 ulldRR",
            places: &[FILE, N, TEXT],
        },
        Subcommand {
            name: "draw",
            about: "Draws a level, at its start or after some letters",
            writes: "\
Writes the rows of the level as it stands then (status 0), which are a
collection of that one level. Floor at row ends is dropped. An illegal letter
is fault 12 Blocked (status 3). Other faults are status 3, 5 or 6.

Example: sok draw small.xsb 1 ulld",
            places: &[FILE, N, LETTERS],
        },
        Subcommand {
            name: "solve",
            about: "Finds a solution with the fewest pushes, or proves that there is none",
            writes: "\
Writes one of these:
  solved PUSHES MOVES  and the letters on the next line, pushes in upper case;
                       no solution has fewer pushes (status 0)
  unsolvable           there is no solution (status 0)
  at least K           with --below K: no solution has fewer than K pushes, so
                       one with K pushes can't be improved (status 0)
  limit S              more than S states can be reached (status 4)
  limit S at least K   with --bound: the same, and no solution has fewer than
                       K pushes (status 4)
With --cert, a certificate that proves the answer is written to PATH; for limit
S there is none, and PATH is left empty. More states are kept with --cert, so a
limit may be exceeded that suffices without it; fewer are kept with --below.
PATH has to be new, empty or a certificate: any other file stays as it is, with
fault 51 WriteFailed. Other faults are status 3, 5 or 6.

Examples: sok solve small.xsb 1 --cert first.cert
          sok solve small.xsb 1 --below 2",
            places: &[FILE, N, BELOW, LIMIT, BOUND, OUTPUT],
        },
        Subcommand {
            name: "check",
            about: "Checks a certificate for a level",
            writes: "\
Writes one line:
  accepted at least K pushes  no solution has fewer than K pushes (status 0)
  accepted unsolvable         there is no solution (status 0)
  refused NUMBER NAME ..      the first fault of the certificate (status 1)
A certificate that is refused proves nothing. Faults of the level or of a file
are status 3, 5 or 6.

Example: sok check small.xsb 1 first.cert",
            places: &[FILE, N, CERT],
        },
        Subcommand {
            name: "add",
            about: "Adds the levels of a collection to a book",
            writes: "\
Writes a line for each level (status 0, even if levels are faulty):
  N id ID                 the level's id in the book: the next one, or that of
                          the same level if it is already there
  N fault NUMBER NAME ..  the level is faulty, and is not added
The error stream sums up at the end: 12 new, 7 already there, 1 with a fault.
If DB is missing or empty, it is made. DB-wal is its log: a change is there at
once, and in DB within a second. Other faults are status 3, 5 or 6, and the
lines written before them stay true.

Example: sok add small.db small.xsb",
            places: &[DB, FILE],
        },
        Subcommand {
            name: "offer",
            about: "Offers a solution to a book, which keeps it if it has fewer pushes",
            writes: "\
Writes one line:
  stored PUSHES MOVES  the level had no best, or one with more pushes (status 0)
  kept PUSHES MOVES    the level keeps its best, which has these (status 1)
Letters that do not solve the level are fault 13 NotSolved (status 1). Other
faults are status 3, 5 or 6.

Example: sok offer small.db 1 ulldRR",
            places: &[DB, ID, TEXT],
        },
        Subcommand {
            name: "offers",
            about: "Offers many solutions to a book, one on each line",
            writes: "\
Each line of FILE is ID LETTERS: the id of a level, a blank, and a solution.
Blank lines are skipped. For each other line it writes, as soon as it is done:
  ID stored PUSHES MOVES   the solution is the best now
  ID kept PUSHES MOVES     the level keeps its best, which has these
  ID fault NUMBER NAME ..  the solution is refused, and changes nothing; ID is
                           0 if the line does not begin with a number
The error stream sums up at the end: 5 stored, 3 kept, 1 with a fault. The
status is 3 if a line is refused, and 0 otherwise. Other faults are status 3, 5
or 6, and the lines written before them stay true.
DB-wal is the log of DB: a change is there at once, and in DB within a second.

Example: sok offers small.db small.lurd",
            places: &[DB, OFFERS],
        },
        Subcommand {
            name: "prove",
            about: "Checks a certificate for a level of a book, and keeps the verdict",
            writes: "\
Writes one line:
  proved optimal K        the best has K pushes, and no solution has fewer
                          (status 0)
  proved unsolvable       there is no solution (status 0)
  refused NUMBER NAME ..  the first fault of the certificate (status 1)
A certificate for another number of pushes than the best has is fault 33
ClaimDiffers, and fault 31 NoBest if there is no best (status 3). Other faults
are status 3, 5 or 6.

Example: sok prove small.db 1 first.cert",
            places: &[DB, ID, CERT],
        },
        Subcommand {
            name: "settle",
            about: "Solves the untested levels of a book, and keeps the verdicts",
            writes: "\
Searches each level with verdict untested, in order of ids. If it has a best,
only a solution with fewer pushes is looked for. Writes as soon as it is done:
  ID optimal PUSHES MOVES  the best has these, and no solution fewer pushes
  ID unsolvable            there is no solution
  ID limit S at least K    more than S states can be reached, and no solution
                           has fewer than K pushes; nothing is kept
  ID fault 14 TooLong      the solution has more than 1,000,000 letters; nothing
                           is kept
The error stream sums up at the end: 172 optimal, 18 at their limit. The status
is 4 if one of the last two lines is written, and 0 otherwise. In FOLDER a
whole certificate is never replaced by another: that is fault 51 WriteFailed,
and the level stays as it was. Other faults are status 3, 5 or 6, and the lines
written before them stay true.
DB-wal is the log of DB: a change is there at once, and in DB within a second.

Examples: sok settle small.db
          sok settle small.db --limit 1000000 --from 2 --to 5
          sok settle small.db --certs certs",
            places: &[DB, LIMIT, FROM, TO, CERTS],
        },
        Subcommand {
            name: "show",
            about: "Shows a level of a book, or each of its levels on a line",
            writes: "\
With ID, writes the rows of the level, and then (status 0):
  title TITLE                if it has a title
  best PUSHES MOVES LETTERS  or best none
  verdict VERDICT            untested, optimal or unsolvable
Without ID, writes a line for each level, in order of ids (status 0):
  ID ROWS COLS BOXES PUSHES MOVES VERDICT TITLE
PUSHES and MOVES are those of the best, or - if there is none. Faults are status
3, 5 or 6.

Examples: sok show small.db 1
          sok show small.db",
            places: &[DB, SHOWN],
        },
        Subcommand {
            name: "export",
            about: "Writes the levels of a book as a collection",
            writes: "\
Writes for each level, in order of ids: ; TITLE if it has a title, its rows,
and an empty line (status 0). With --solutions, before the empty line:
  Solution: LETTERS  the best, if there is one
  Pushes: K          its pushes; or K optimal, if no solution has fewer
  Unsolvable         if there is no solution
Faults are status 5 or 6.

Examples: sok export small.db > small.xsb
          sok export small.db --solutions > solved.xsb",
            places: &[DB, SOLUTIONS],
        },
    ]
}
