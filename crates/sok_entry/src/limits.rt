//! Which certificates have a text: those whose numbers are within the limits.

ghost use Rattle.std.specs.Prelude.{◌≡◌, ◌↔◌, ◌∷◌, ◌++◌, [], All, IsTrue, length};
ghost use Rattle.sok_entry.specs.Text.{IsSmall, FitsClaim, FitsEntry, FitsInner, Fits, FitsReason};
ghost use Rattle.sok_entry.specs.Text.{numbers_of_reason, reason_alike};

use crate::claim::Claim;
use crate::entry::{Certificate, Entry, Inner, InnerReason, Reason};

/// The greatest number in the text of a certificate.
pub const LIMIT: u32 = 1_000_000;

/// Returns whether a certificate has a text. Each number and the length of each list, also of
/// patterns, must be at most 1,000,000, and each bound must have one price for each box of its
/// entry.
pub fn fits(certificate: &Certificate) -> bool
    ensures { IsTrue result ↔ Fits certificate.now.claim certificate.now.entries.items }
{
    claim_fits(&certificate.claim) && certificate.entries.iter().all(|entry| entry_fits(entry))
}

fn claim_fits(claim: &Claim) -> bool
    ensures { IsTrue result ↔ FitsClaim claim.now }
{
    match claim {
        Claim::Pushes(pushes) => *pushes <= LIMIT,
        Claim::Unsolvable => true,
    }
}

fn entry_fits(entry: &Entry) -> bool
    ensures { IsTrue result ↔ FitsEntry entry.now }
{
    position_fits(entry.depth, entry.player, entry.boxes.as_slice())
        && reason_fits(&entry.reason, entry.boxes.as_slice().len())
}

/// Checks the numbers that come before a reason.
fn position_fits(depth: u32, player: u32, boxes: &[u32]) -> bool
    ensures { IsTrue result
        ↔ All IsSmall (depth ∷ player ∷ length boxes.now ∷ boxes.now) }
{
    are_small(&[depth, player]) && counted_fits(boxes)
}

/// Checks the numbers of a reason, at an entry with this many boxes.
fn reason_fits(reason: &Reason, boxes: usize) -> bool
    ensures { IsTrue result ↔ FitsReason reason.now boxes }
{
    match reason {
        Reason::Expanded | Reason::Spent => true,
        Reason::Bound { u, v } => bound_fits(u.as_slice(), v.as_slice(), boxes),
        Reason::Crowd { members } | Reason::Frozen { members } => counted_fits(members.as_slice()),
        Reason::Pattern { members, inner } => { pattern_fits(members.as_slice(), inner.as_slice()) }
    }
}

fn pattern_fits(members: &[u32], inner: &[Inner]) -> bool
    ensures { IsTrue result
        ↔ (All IsSmall (length members.now ∷ members.now ++ length inner.now ∷ [])
        × All FitsInner inner.now) }
{
    counted_fits(members) && inner_fit(inner)
}

/// Checks the inner positions of a pattern, and their number.
fn inner_fit(inner: &[Inner]) -> bool
    ensures { IsTrue result ↔ (IsSmall (length inner.now) × All FitsInner inner.now) }
{
    inner.len() <= LIMIT as usize && all_fit(inner)
}

/// Returns whether each of these inner positions has a line.
pub(crate) fn all_fit(inner: &[Inner]) -> bool
    ensures { IsTrue result ↔ All FitsInner inner.now }
{
    inner.iter().all(|position| inner_fits(position))
}

fn inner_fits(inner: &Inner) -> bool
    ensures { IsTrue result ↔ FitsInner inner.now }
{
    position_fits(inner.depth, inner.player, inner.boxes.as_slice())
        && inner_reason_fits(&inner.reason)
}

fn inner_reason_fits(reason: &InnerReason) -> bool
    ensures { IsTrue result ↔ All IsSmall (numbers_of_reason (reason_alike reason.now)) }
{
    match reason {
        InnerReason::Expanded => true,
        InnerReason::Crowd { members } | InnerReason::Frozen { members } => {
            counted_fits(members.as_slice())
        }
    }
}

fn bound_fits(u: &[u32], v: &[u32], boxes: usize) -> bool
    ensures { IsTrue result ↔ ((length u.now ≡ boxes) × All IsSmall (u.now ++ v.now)) }
{
    u.len() == boxes && both_are_small(u, v)
}

fn both_are_small(u: &[u32], v: &[u32]) -> bool
    ensures { IsTrue result ↔ All IsSmall (u.now ++ v.now) }
{
    are_small(u) && are_small(v)
}

/// Checks numbers that are written after their count.
fn counted_fits(numbers: &[u32]) -> bool
    ensures { IsTrue result ↔ All IsSmall (length numbers.now ∷ numbers.now) }
{
    is_short(numbers) && are_small(numbers)
}

fn is_short(numbers: &[u32]) -> bool
    ensures { IsTrue result ↔ IsSmall (length numbers.now) }
{
    numbers.len() <= LIMIT as usize
}

fn are_small(numbers: &[u32]) -> bool
    ensures { IsTrue result ↔ All IsSmall numbers.now }
{
    numbers.iter().all(|number| *number <= LIMIT)
}
