//! The places and options of a subcommand, with their help.

ghost use Rattle.sok_words.specs.Shapes.{Follows, rule_of_kind};

use clap::{Arg, ArgAction, value_parser};
use std::alloc::Global;

/// What is read in a place. `Pushes`, `Limit`, `First`, `Last`, `Flag`, `Path` and `Folder` are
/// options.
#[derive(Clone, Copy)]
pub(crate) enum Kind {
    Text,
    /// A text that may be left out.
    Optional,
    Number,
    Id,
    /// An id that may be left out.
    OptionalId,
    /// A number of pushes, at most 1,000,000.
    Pushes,
    Limit,
    /// The first id of a span.
    First,
    /// The last id of a span.
    Last,
    Flag,
    Path,
    /// The path of a folder.
    Folder,
}

/// A place or an option of a subcommand.
#[derive(Clone, Copy)]
pub(crate) struct Place {
    name: &'static str,
    kind: Kind,
    help: &'static str,
}

impl Place {
    /// Returns the argument for the parser.
    pub(crate) fn arg<'a>(self, alloc: Global) -> Arg<'a>
        ensures { Follows (rule_of_kind self.kind self.name.now) result }
    {
        let arg = Arg::new(alloc, self.name).help(self.help);
        match self.kind {
            Kind::Text => arg.required(true),
            Kind::Optional => arg,
            Kind::Number => arg.required(true).value_parser(value_parser!(u32)),
            Kind::Id => arg.required(true).value_parser(value_parser!(i64)),
            Kind::OptionalId => arg.value_parser(value_parser!(i64)),
            Kind::Pushes => arg
                .long(self.name)
                .value_parser(value_parser!(u32).range(0..=1_000_000))
                .value_name("K"),
            Kind::Limit => arg
                .long(self.name)
                .value_parser(value_parser!(u32))
                .default_value("100000")
                .value_name("S"),
            Kind::First => arg
                .long(self.name)
                .value_parser(value_parser!(i64))
                .default_value("1")
                .value_name("ID"),
            Kind::Last => arg
                .long(self.name)
                .value_parser(value_parser!(i64))
                .value_name("ID"),
            Kind::Flag => arg.long(self.name).action(ArgAction::SetTrue),
            Kind::Path => arg.long(self.name).value_name("PATH"),
            Kind::Folder => arg.long(self.name).value_name("FOLDER"),
        }
    }
}

pub(crate) const FILE: Place = Place {
    name: "FILE",
    kind: Kind::Text,
    help: "A collection of levels (XSB); - reads standard input",
};

pub(crate) const OFFERS: Place = Place {
    name: "FILE",
    kind: Kind::Text,
    help: "Lines of an id, a blank and letters; - reads standard input",
};

pub(crate) const N: Place = Place {
    name: "N",
    kind: Kind::Number,
    help: "The number of the level in the collection, from 1",
};

pub(crate) const TEXT: Place = Place {
    name: "TEXT",
    kind: Kind::Text,
    help: "Letters l, u, r and d, at most 1,000,000; - reads standard input",
};

pub(crate) const LETTERS: Place = Place {
    name: "TEXT",
    kind: Kind::Optional,
    help: "Letters to play first; without them the start is drawn",
};

pub(crate) const BELOW: Place = Place {
    name: "below",
    kind: Kind::Pushes,
    help: "Look only for solutions with fewer than K pushes",
};

pub(crate) const LIMIT: Place = Place {
    name: "limit",
    kind: Kind::Limit,
    help: "Keep at most S states, 1 to 1,000,000",
};

pub(crate) const BOUND: Place = Place {
    name: "bound",
    kind: Kind::Flag,
    help: "If the limit is exceeded, report a lower bound",
};

pub(crate) const OUTPUT: Place = Place {
    name: "cert",
    kind: Kind::Path,
    help: "Write the certificate to this file, never to FILE",
};

pub(crate) const CERT: Place = Place {
    name: "CERT",
    kind: Kind::Text,
    help: "A certificate that solve wrote; - reads standard input",
};

pub(crate) const DB: Place = Place {
    name: "DB",
    kind: Kind::Text,
    help: "The database of the book; only add makes a new one",
};

pub(crate) const SOLUTIONS: Place = Place {
    name: "solutions",
    kind: Kind::Flag,
    help: "Add what is known of each level: its best and verdict",
};

pub(crate) const ID: Place = Place {
    name: "ID",
    kind: Kind::Id,
    help: "The id of the level in the book, from 1",
};

pub(crate) const FROM: Place = Place {
    name: "from",
    kind: Kind::First,
    help: "Skip the levels with a lower id",
};

pub(crate) const TO: Place = Place {
    name: "to",
    kind: Kind::Last,
    help: "Skip the levels with a higher id",
};

pub(crate) const CERTS: Place = Place {
    name: "certs",
    kind: Kind::Folder,
    help: "Keep each certificate in this folder, as ID.cert",
};

pub(crate) const SHOWN: Place = Place {
    name: "ID",
    kind: Kind::OptionalId,
    help: "The id of a level, from 1; without it all levels are listed",
};
