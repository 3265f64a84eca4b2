//! Reads certificates from their text.

ghost use Rattle.std.specs.Prelude.{ℕ, ◌≡◌, ◌<◌, ◌^◌, ◌⊎◌, ◌++◌, ◌∷◌, [], List, IfErr, IfOk, MatchResult, length};
ghost use Rattle.sok_entry.specs.Text.{SpellsCertificate};
ghost use Rattle.sok_entry.specs.Reading.{GoesWrong};
ghost use Rattle.sok_entry.specs.Stages.{AreWrong, IsStage};
ghost use Rattle.sok_entry.specs.declared.claim.Claim.{Claim};
ghost use Rattle.sok_entry.specs.declared.entry.Entry.{Entry};
ghost use Rattle.sok_entry.specs.declared.fault.CertFault.TheVariants as cert;

use crate::entry::{Certificate, Entry};
use crate::fault::CertFault;
use crate::stage::{LineRead, Stage};
use sok_text::line::{cut_at_end, without_return};
use std::alloc::Global;

/// Reads a certificate from its text. Lines end with LF or CR LF; the last one may have no end.
///
/// Errors: the first fault of the text. `Header` if the first or second line is missing or has
/// another form. Then, line by line: `Truncated` if no line is left before `end`, or a line that is
/// not `end` has no end; `Line` if a line with an end is neither an entry nor `end`, or a line
/// follows `end`. Where an inner position of a pattern has to follow, `Line` if a line with an end
/// is anything else, and `Truncated` also for `end` without an end. `Memory` at any time.
pub fn read(alloc: Global, text: &[u8]) -> Result<Certificate, CertFault>
    // What is returned is what the text spells.
    ensures found { IfOk result (λ found. SpellsCertificate text.now found.claim found.entries.items) }
    // A text that spells a certificate is read, unless memory is refused.
    ensures only { (claim : Claim) (entries : List Entry) → SpellsCertificate text.now claim entries
        → MatchResult result (λ found. (found.claim ≡ claim) × (found.entries.items ≡ entries))
        (λ fault. fault ≡ cert.Memory) }
    ensures fault { IfErr result (λ fault. (fault ≡ cert.Memory) ⊎ GoesWrong text.now fault) }
{
    certificate_of(alloc, text)
}

/// Does the work of `read`. That function adds the clause `only`.
fn certificate_of(alloc: Global, text: &[u8]) -> Result<Certificate, CertFault>
    ensures { MatchResult result (λ found. SpellsCertificate text.now found.claim found.entries.items)
        (λ fault. (fault ≡ cert.Memory) ⊎ GoesWrong text.now fault) }
{
    let mut stage = Stage::AtHeader;
    let mut lines = 0;
    let mut entries = Vec::new(alloc);
    let mut numbers = Vec::new(alloc);
    let mut rest = text;
    while let Some((line, behind)) = cut_at_end(rest) {
        let line = without_return(line);
        stage = read_line(alloc, &mut numbers, stage, line, lines, &mut entries)?;
        lines += 1;
        rest = behind;
    }
    let claim = stage.ended(rest, lines)?;
    Ok(Certificate { claim, entries })
}

/// Reads the next line, after `lines` others, and appends the entry that it completes, if any.
/// `numbers` is a buffer for the numbers of the line.
fn read_line(
    alloc: Global,
    numbers: &mut Vec<u32>,
    stage: Stage,
    line: &[u8],
    lines: usize,
    entries: &mut Vec<Entry>,
) -> Result<Stage, CertFault>
    requires { lines < 2 ^ 63 }
    ensures { (ls : List (List ℕ)) → length ls ≡ lines → IsStage ls entries.old.items stage
        → MatchResult result (IsStage (ls ++ line.now ∷ []) entries.new.items)
        (λ fault. (fault ≡ cert.Memory) ⊎ AreWrong (ls ++ line.now ∷ []) fault) }
{
    match stage.line(alloc, numbers, line, lines)? {
        LineRead::Listed(_, entry, next) => {
            entries.push(entry)?;
            Ok(next)
        }
        LineRead::Passed(next) => Ok(next),
        LineRead::Wrong(fault) => Err(fault),
    }
}
