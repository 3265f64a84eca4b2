//! Levels of a book, with what is known of them.

use sok_rules::cell::Dir;
use sok_rules::level::Level;
use std::marker::Model;

/// What is known of a level's best solution.
#[derive(Clone, Copy, PartialEq, Eq)]
pub enum Verdict {
    /// Nothing is proved.
    Untested,
    /// No solution has fewer pushes.
    Optimal,
    /// The level has no solution.
    Unsolvable,
}

/// What became of an offered solution.
#[derive(Clone, Copy, PartialEq, Eq)]
pub enum Offer {
    /// It is now the best solution.
    Stored,
    /// The best solution stays, since it has no more pushes.
    Kept,
}

/// A solution as it is kept. Contracts see it as its letters, pushes and moves.
#[derive(Drop)]
pub struct Best {
    pub letters: Vec<Dir>,
    /// How many letters push a box.
    pub pushes: u32,
    /// How many letters there are, including those that push.
    pub moves: u32,
}

impl Model for Best {
    ghost use Rattle.sok_book.specs.Books.{Solution};

    ghost Value = { Solution };

    ghost view = { λ best.
        record { letters = best.letters.items; pushes = best.pushes; moves = best.moves } };
}

/// A level of a book, with what is known of it. Contracts see it as its id and its page.
#[derive(Drop)]
pub struct Record {
    /// Ids count from 1, without a gap.
    pub id: i64,
    pub level: Level,
    /// One line that is not empty, without blanks at its ends.
    pub title: Option<Vec<u8>>,
    pub best: Option<Best>,
    pub verdict: Verdict,
}

impl Model for Record {
    ghost use Rattle.std.specs.Prelude.{option_map};
    ghost use Rattle.sok_book.specs.Books.{PageWithId};

    ghost Value = { PageWithId };

    ghost view = { λ kept. record {
      id = kept.id;
      page = record {
        level = kept.level;
        title = option_map (λ title. title.items) kept.title;
        best = kept.best;
        verdict = kept.verdict;
      };
    } };
}
