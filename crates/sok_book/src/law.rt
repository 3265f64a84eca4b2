//! Laws of books.

ghost use Rattle.std.specs.Prelude.{[]};
ghost use Rattle.sok_book.specs.Books.{IsTrueBook};
ghost use Rattle.sok_book.specs.Laws.{MadeBooksAreTrue, CommandsKeepTruth};
ghost use Rattle.sok_book.specs.Laws.{CommandsKeepPages, VerdictsStay};
ghost use Rattle.sok_book.specs.Outcomes.{AddsAreNotRefused, OffersAreNotRefused};
ghost use Rattle.sok_book.specs.Outcomes.{ProofsAreNotRefused, SolutionsAreNotRefused};

/// The empty book is true, and each command keeps a true book true. In a true book every best
/// solution solves its level with its stated pushes and moves. If a verdict is optimal, no solution
/// has fewer pushes; if it is unsolvable, there is no solution. So every book that commands made is
/// true.
pub fn books_are_true()
    ensures empty { IsTrueBook [] }
    ensures kept { CommandsKeepTruth }
    ensures made { MadeBooksAreTrue }
{}

/// No command removes a level or changes its title. A best solution is replaced only by one with
/// fewer pushes.
pub fn bests_only_improve()
    ensures { CommandsKeepPages }
{}

/// A command is either done or refused, never both. So a report of success or of a cause of refusal
/// settles which of the two it is.
pub fn commands_have_one_outcome()
    ensures adds { AddsAreNotRefused }
    ensures offers { OffersAreNotRefused }
    ensures proofs { ProofsAreNotRefused }
    ensures solutions { SolutionsAreNotRefused }
{}

/// In a true book no verdict is withdrawn.
pub fn verdicts_stay()
    ensures { VerdictsStay }
{}
