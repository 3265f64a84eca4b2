//! Laws of the texts of certificates.

ghost use Rattle.std.specs.Prelude.{◌≡◌, ℕ, List};
ghost use Rattle.sok_entry.specs.Text.{Fits, SpellsCertificate, text_of};
ghost use Rattle.sok_entry.specs.Reading.{GoesWrong};
ghost use Rattle.sok_entry.specs.declared.claim.Claim.{Claim};
ghost use Rattle.sok_entry.specs.declared.entry.Entry.{Entry};
ghost use Rattle.sok_entry.specs.declared.fault.CertFault.{CertFault};

/// If the numbers of a certificate are within the limits, the text that is written of it spells
/// this certificate.
pub fn written_texts_spell()
    ensures { (claim : Claim) (entries : List Entry)
        → Fits claim entries → SpellsCertificate (text_of claim entries) claim entries }
{}

/// A text spells at most one certificate, or has one first fault, and never both.
pub fn texts_have_one_reading()
    ensures spelled { (text : List ℕ) (c d : Claim) (es fs : List Entry)
        → SpellsCertificate text c es → SpellsCertificate text d fs → (c ≡ d) × (es ≡ fs) }
    ensures wrong { (text : List ℕ) (f g : CertFault)
        → GoesWrong text f → GoesWrong text g → f ≡ g }
    ensures apart { (text : List ℕ) (claim : Claim) (entries : List Entry) (fault : CertFault)
        → SpellsCertificate text claim entries → GoesWrong text fault → ⊥ }
{}
