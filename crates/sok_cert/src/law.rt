//! Laws of certificates and of their verdicts.

ghost use Rattle.std.specs.Prelude.{◌≡◌, ◌≢◌, ℕ, List, Result};
ghost use Rattle.sok_board.specs.Area.{IsAccepted, BoardView};
ghost use Rattle.sok_cert.specs.Closed.{IsClosed, ShowsClaims};
ghost use Rattle.sok_cert.specs.Refusals.{IsRefused};
ghost use Rattle.sok_cert.specs.Verdicts.{IsVerdict};
ghost use Rattle.sok_entry.specs.declared.claim.Claim.{Claim};
ghost use Rattle.sok_entry.specs.declared.entry.Entry.{Entry};
ghost use Rattle.sok_entry.specs.declared.fault.CertFault.{CertFault};
ghost use Rattle.sok_entry.specs.declared.fault.CertFault.TheVariants.{Memory};

/// A list of entries has at most one first fault, and a closed list has none.
pub fn lists_have_one_judgement()
    ensures one { (b : BoardView) (claim : Claim) (entries : List Entry) (f g : CertFault)
        → f ≢ Memory → g ≢ Memory → IsRefused b claim entries f → IsRefused b claim entries g
        → f ≡ g }
    ensures closed { (b : BoardView) (claim : Claim) (entries : List Entry) (f : CertFault)
        → f ≢ Memory → IsClosed b claim entries → IsRefused b claim entries f → ⊥ }
{}

/// A closed certificate shows its claim. One of its positions is the start, at depth 0. Each
/// position is barred by a reason, or has a box off a goal and every push from it, after any walk,
/// leads to a position of the certificate that is at most one deeper. So no solution has fewer
/// pushes than claimed, or there is no solution.
pub fn closed_certificates_are_true()
    ensures { (b : BoardView) → IsAccepted b → ShowsClaims b }
{}

/// The text of a certificate has one verdict on a board: a claim that it shows, or its first fault.
pub fn texts_have_one_verdict()
    ensures { (b : BoardView) (text : List ℕ) (v w : Result Claim CertFault)
        → IsVerdict b text v → IsVerdict b text w → v ≡ w }
{}
