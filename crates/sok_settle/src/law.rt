//! Laws of a book whose levels were settled, or to which lines were offered.

ghost use Rattle.sok_settle.specs.Laws.{OffersAreSome, OffersFold, OffersKeepTruth};
ghost use Rattle.sok_settle.specs.Laws.{SettledHaveCerts, SettledHaveVerdicts, SettlingsAreSome};
ghost use Rattle.sok_settle.specs.Laws.{SettlingsFold, SettlingsKeepTruth, SettlingsKeepVerdicts};

use crate::certs::Certs;

/// However a settling ends, the book is what accepted commands make of it, one after another. So a true
/// book stays true. A level outside the span, or with a verdict, is as it was. If every level that was
/// tried is settled, every level of the span has a verdict. A certificate was kept of each level that got
/// its verdict, if certificates are kept.
pub fn settled_books_are_made_by_commands<C: Certs>(certs: &C)
    ensures some { SettlingsAreSome (C.keeping certs.now) }
    ensures folded { SettlingsFold (C.keeping certs.now) }
    ensures truth { SettlingsKeepTruth (C.keeping certs.now) }
    ensures kept { SettlingsKeepVerdicts (C.keeping certs.now) }
    ensures settled { SettledHaveVerdicts (C.keeping certs.now) }
    ensures certified { SettledHaveCerts (C.keeping certs.now) }
{}

/// Whatever lines were offered, the book is what accepted commands make of it, one after another. So a
/// true book stays true.
pub fn offered_books_are_made_by_commands()
    ensures some { OffersAreSome }
    ensures folded { OffersFold }
    ensures truth { OffersKeepTruth }
{}
