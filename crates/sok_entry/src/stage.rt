//! How far a certificate has been read, line by line.

ghost use Rattle.std.specs.Prelude.{ℕ, ◌≡◌, ◌<◌, ◌≤◌, ◌^◌, ◌++◌, ◌∷◌, [], List, All, IfOk, MatchResult, Some};
ghost use Rattle.std.specs.Prelude.{length, map};
ghost use Rattle.sok_entry.specs.Reading.{FitsHead, GoesWrong, unfinished_lines};
ghost use Rattle.sok_entry.specs.Stages.{AreRead, IsRead, IsSplit, IsStage, MayClaim, ReadsOn, awaited};
ghost use Rattle.sok_entry.specs.Text.{FitsInner, SpellsCertificate, inner_line};
ghost use Rattle.sok_entry.specs.declared.entry.Entry.{Entry};
ghost use Rattle.sok_entry.specs.declared.stage.Stage.TheVariants as at;
ghost use Rattle.sok_entry.specs.declared.version.Version.TheVariants as versions;

use crate::claim::Claim;
use crate::entry::{Entry, Inner};
use crate::fault::CertFault;
use crate::grammar::{END, claim_of_line, inner_of_line, opening_of_line, version_of_line};
use crate::head::{Head, Opening};
use crate::inners::Inners;
use crate::version::Version;
use std::alloc::{AllocError, Global};

/// What comes next in a certificate of which some lines were read.
#[derive(Drop)]
pub enum Stage {
    /// The header.
    AtHeader,
    /// The claim, in this version of the text.
    AtClaim(Version),
    /// Entries of a certificate with this claim, or `end`.
    AtEntries(Version, Claim),
    /// An inner position of the pattern with this first line, after these.
    AtInner {
        claim: Claim,
        head: Head,
        inner: Vec<Inner>,
    },
    /// Nothing: the certificate with this claim is complete.
    AtEnd(Claim),
}

/// What a line is, given the lines before it.
#[derive(Drop)]
pub enum LineRead {
    /// The last line of an entry of a certificate with this claim, and what comes next.
    Listed(Claim, Entry, Stage),
    /// Another line that may come here, and what comes next.
    Passed(Stage),
    /// A line with which the text goes wrong, whatever follows.
    Wrong(CertFault),
}

impl Stage {
    /// Reads the next line, given without its end, after `lines` others. `numbers` is a buffer for
    /// its numbers. On an error, the stage is lost.
    pub fn line(
        self,
        alloc: Global,
        numbers: &mut Vec<u32>,
        line: &[u8],
        lines: usize,
    ) -> Result<LineRead, AllocError>
        requires { lines < 2 ^ 63 }
        ensures { ReadsOn self lines line.now result }
    {
        match self {
            Stage::AtHeader => Ok(at_header(line)),
            Stage::AtClaim(version) => Ok(at_claim(version, line)),
            Stage::AtEntries(version, claim) => {
                at_entries(alloc, numbers, version, claim, line, lines)
            }
            Stage::AtInner { claim, head, inner } => {
                at_inner(alloc, numbers, claim, head, inner, line, lines)
            }
            Stage::AtEnd(_) => Ok(LineRead::Wrong(CertFault::Line(lines + 1))),
        }
    }

    /// Returns the number of inner positions to come, if a pattern has begun and none has been
    /// read.
    pub fn awaited(&self) -> Option<usize>
        ensures { result ≡ awaited self.now }
    {
        match self {
            Stage::AtInner { head, inner, .. } if inner.is_empty() => Some(head.count as usize),
            _ => None,
        }
    }

    /// Skips the lines of all inner positions of a pattern, if it is known what they are. The entry
    /// shares them. On an error, the stage is lost.
    pub fn pass(self, inner: &Inners) -> Result<LineRead, AllocError>
        requires { awaited self ≡ Some (length inner.now) }
        ensures { (ls : List (List ℕ)) (es : List Entry)
            → All FitsInner inner.now → IsStage ls es self
            → IfOk result (IsRead (ls ++ map inner_line inner.now) es self) }
    {
        let Stage::AtInner { claim, head, .. } = self else {
            unreachable!();
        };
        Ok(whole(claim, head, inner.share()?))
    }

    /// Returns the claim of a text that ends here, after `lines` lines and the bytes `rest`, in
    /// which no line ends. Takes no memory. Errors: the fault of the text, if it is no certificate.
    pub fn ended(&self, rest: &[u8], lines: usize) -> Result<Claim, CertFault>
        requires { lines < 2 ^ 63 }
        ensures { (text : List ℕ) (ls : List (List ℕ)) (es : List Entry)
            → length ls ≡ lines → IsSplit text ls rest.now → IsStage ls es self.now
            → MatchResult result (λ claim. SpellsCertificate text claim es × MayClaim self.now claim)
            (GoesWrong text) }
    {
        match self {
            Stage::AtHeader => Err(CertFault::Header),
            Stage::AtClaim(_) => match claim_of_line(rest) {
                Some(_) => Err(CertFault::Truncated),
                None => Err(CertFault::Header),
            },
            Stage::AtEntries(_, claim) => {
                if rest == END {
                    return Ok(*claim);
                }
                Err(CertFault::Truncated)
            }
            Stage::AtInner { .. } => Err(CertFault::Truncated),
            Stage::AtEnd(claim) => {
                if rest.is_empty() {
                    return Ok(*claim);
                }
                Err(CertFault::Line(lines + 1))
            }
        }
    }
}

fn at_header(line: &[u8]) -> LineRead
    ensures { (ls : List (List ℕ)) (es : List Entry) → IsStage ls es at.AtHeader
        → IsRead (ls ++ line.now ∷ []) es at.AtHeader result }
{
    match version_of_line(line) {
        Some(version) => LineRead::Passed(Stage::AtClaim(version)),
        None => LineRead::Wrong(CertFault::Header),
    }
}

fn at_claim(version: Version, line: &[u8]) -> LineRead
    ensures { (ls : List (List ℕ)) (es : List Entry) → IsStage ls es (at.AtClaim version)
        → IsRead (ls ++ line.now ∷ []) es (at.AtClaim version) result }
{
    match claim_of_line(line) {
        Some(claim) => LineRead::Passed(Stage::AtEntries(version, claim)),
        None => LineRead::Wrong(CertFault::Header),
    }
}

fn at_entries(
    alloc: Global,
    numbers: &mut Vec<u32>,
    version: Version,
    claim: Claim,
    line: &[u8],
    lines: usize,
) -> Result<LineRead, AllocError>
    requires { lines < 2 ^ 63 }
    ensures { ReadsOn (at.AtEntries version claim) lines line.now result }
{
    if line == END {
        return Ok(LineRead::Passed(Stage::AtEnd(claim)));
    }
    match opening_of_line(alloc, numbers, version, line)? {
        Some(Opening::Whole(entry)) => {
            Ok(LineRead::Listed(claim, entry, Stage::AtEntries(version, claim)))
        }
        Some(Opening::Begun(head)) => inside(alloc, claim, head, Vec::new(alloc)),
        None => Ok(LineRead::Wrong(CertFault::Line(lines + 1))),
    }
}

fn at_inner(
    alloc: Global,
    numbers: &mut Vec<u32>,
    claim: Claim,
    head: Head,
    inner: Vec<Inner>,
    line: &[u8],
    lines: usize,
) -> Result<LineRead, AllocError>
    requires { lines < 2 ^ 63 }
    ensures { ReadsOn (at.AtInner claim head inner) lines line.now result }
{
    let mut inner = inner;
    match inner_of_line(alloc, numbers, line)? {
        Some(position) => {
            inner.push(position)?;
            inside(alloc, claim, head, inner)
        }
        None => Ok(LineRead::Wrong(CertFault::Line(lines + 1))),
    }
}

/// Returns what the latest line of a pattern is, with which these inner positions were read.
fn inside(
    alloc: Global,
    claim: Claim,
    head: Head,
    inner: Vec<Inner>,
) -> Result<LineRead, AllocError>
    ensures { IfOk result (λ read. (ls : List (List ℕ)) (es : List Entry)
        → FitsHead head → All FitsInner inner.items → length inner.items ≤ head.count
        → AreRead ls versions.Two claim es (unfinished_lines head inner.items)
        → IsRead ls es (at.AtEntries versions.Two claim) read) }
{
    if inner.len() < head.count as usize {
        return Ok(LineRead::Passed(Stage::AtInner { claim, head, inner }));
    }
    Ok(whole(claim, head, Inners::new(alloc, inner)?))
}

/// Returns the entry of a pattern whose inner positions are complete.
fn whole(claim: Claim, head: Head, inner: Inners) -> LineRead
    ensures { (ls : List (List ℕ)) (es : List Entry)
        → FitsHead head → All FitsInner inner → length inner ≡ head.count
        → AreRead ls versions.Two claim es (unfinished_lines head inner)
        → IsRead ls es (at.AtEntries versions.Two claim) result }
{
    LineRead::Listed(
        claim,
        head.with(inner),
        Stage::AtEntries(Version::Two, claim),
    )
}
