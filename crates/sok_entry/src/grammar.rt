//! Reads the lines of a certificate.

ghost use Rattle.std.specs.Prelude.{◌≡◌, ◌++◌, IfOk, MatchOption, codes};
ghost use Rattle.sok_entry.specs.Entries.{bare, bound_of, counts_of, members_of, reason_of};
ghost use Rattle.sok_entry.specs.Entries.{entry_of, front_of, head_of};
ghost use Rattle.sok_entry.specs.Text.{entry_alike, header, reason_alike};
ghost use Rattle.sok_entry.specs.Reading.{Begins, Tells, IsClaimLine, IsEntryLine, IsHeadLine};
ghost use Rattle.sok_entry.specs.Reading.{IsInnerLine};

use crate::claim::Claim;
use crate::entry::{Entry, Inner, InnerReason, Numbers, Reason};
use crate::head::{Head, Opening};
use crate::number::{number_of, read_numbers};
use crate::version::Version;
use std::alloc::{AllocError, Global};

const HEADER_ONE: &[u8] = b"sokoban-certificate 1";

const HEADER_TWO: &[u8] = b"sokoban-certificate 2";

/// The last line of a certificate.
pub(crate) const END: &[u8] = b"end";

const UNSOLVABLE: &[u8] = b"unsolvable";

const PUSHES: &[u8] = b"pushes ";

/// Returns the version that a line names, or None if it is no first line.
pub(crate) fn version_of_line(line: &[u8]) -> Option<Version>
    ensures { Tells (λ version. line.now ≡ header version) result }
{
    if line == HEADER_ONE {
        return Some(Version::One);
    }
    if line == HEADER_TWO {
        return Some(Version::Two);
    }
    None
}

/// Returns the claim that a line spells, if any.
pub(crate) fn claim_of_line(line: &[u8]) -> Option<Claim>
    ensures { Tells (IsClaimLine line.now) result }
{
    if line == UNSOLVABLE {
        return Some(Claim::Unsolvable);
    }
    match line.strip_prefix(PUSHES) {
        Some(word) => pushes_of(word),
        None => None,
    }
}

fn pushes_of(word: &[u8]) -> Option<Claim>
    ensures { Tells (IsClaimLine (codes "pushes " ++ word.now)) result }
{
    match number_of(word) {
        Some(pushes) => Some(Claim::Pushes(pushes)),
        None => None,
    }
}

/// Returns what a line begins in this version, or None if it is no first line of an entry. Here and
/// below, `numbers` is a buffer for the numbers of the line.
pub(crate) fn opening_of_line(
    alloc: Global,
    numbers: &mut Vec<u32>,
    version: Version,
    line: &[u8],
) -> Result<Option<Opening>, AllocError>
    ensures { IfOk result (Tells (Begins version line.now)) }
{
    match entry_of_line(alloc, numbers, line)? {
        Some(entry) => Ok(Some(Opening::Whole(entry))),
        None => match version {
            Version::One => Ok(None),
            Version::Two => match head_of_line(alloc, numbers, line)? {
                Some(head) => Ok(Some(Opening::Begun(head))),
                None => Ok(None),
            },
        },
    }
}

/// Returns the inner position that a line spells, if any.
pub(crate) fn inner_of_line(
    alloc: Global,
    numbers: &mut Vec<u32>,
    line: &[u8],
) -> Result<Option<Inner>, AllocError>
    ensures { IfOk result (Tells (IsInnerLine line.now)) }
{
    match entry_of_line(alloc, numbers, line)? {
        Some(entry) => Ok(inner_of(entry)),
        None => Ok(None),
    }
}

/// Returns the inner position of the same form as an entry, or None if there is none.
fn inner_of(entry: Entry) -> Option<Inner>
    ensures { Tells (λ inner. entry ≡ entry_alike inner) result }
{
    let reason = inner_reason_of(entry.reason)?;
    Some(Inner {
        depth: entry.depth,
        player: entry.player,
        boxes: entry.boxes,
        reason,
    })
}

fn inner_reason_of(reason: Reason) -> Option<InnerReason>
    ensures { Tells (λ inner. reason ≡ reason_alike inner) result }
{
    match reason {
        Reason::Expanded => Some(InnerReason::Expanded),
        Reason::Crowd { members } => Some(InnerReason::Crowd { members }),
        Reason::Frozen { members } => Some(InnerReason::Frozen { members }),
        Reason::Spent | Reason::Bound { .. } | Reason::Pattern { .. } => None,
    }
}

/// Returns the first line of a pattern that a line spells, if any.
fn head_of_line(
    alloc: Global,
    numbers: &mut Vec<u32>,
    line: &[u8],
) -> Result<Option<Head>, AllocError>
    ensures { IfOk result (Tells (IsHeadLine line.now)) }
{
    if line.len() < 2 {
        return Ok(None);
    }
    if line[0] != b'p' {
        return Ok(None);
    }
    if line[1] != b' ' {
        return Ok(None);
    }
    if !read_numbers(numbers, &line[2..])? {
        return Ok(None);
    }
    head_of(alloc, numbers)
}

/// Returns the entry that a line spells, if any and if it is no pattern.
fn entry_of_line(
    alloc: Global,
    numbers: &mut Vec<u32>,
    line: &[u8],
) -> Result<Option<Entry>, AllocError>
    ensures { IfOk result (Tells (IsEntryLine line.now)) }
{
    if line.len() < 2 {
        return Ok(None);
    }
    // The line of a pattern; `head_of_line` reads it.
    if line[0] == b'p' {
        return Ok(None);
    }
    if line[1] != b' ' {
        return Ok(None);
    }
    if !read_numbers(numbers, &line[2..])? {
        return Ok(None);
    }
    entry_of(alloc, line[0], numbers)
}

/// The numbers of a position, and those that follow it.
#[derive(Clone, Copy)]
struct Front<'a> {
    depth: u32,
    player: u32,
    boxes: &'a [u32],
    more: &'a [u32],
}

/// Splits numbers into the depth, the player, the boxes after their count, and the rest. None if
/// there are too few.
#[tactic(auto, unfolding(crate::specs::Entries::front_of))]
fn front_of(numbers: &[u32]) -> Option<Front<'_>>
    ensures { MatchOption result (front_of numbers.now ≡ None) (λ front.
        front_of numbers.now ≡ Some (record {
          depth = front.depth;
          player = front.player;
          boxes = front.boxes.now;
          more = front.more.now;
        })) }
{
    let [depth, player, count, more @ ..] = numbers else {
        return None;
    };
    let count = *count as usize;
    if more.len() < count {
        return None;
    }
    let (boxes, more) = more.split_at(count);
    Some(Front {
        depth: *depth,
        player: *player,
        boxes,
        more,
    })
}

/// Returns the entry that a letter and numbers spell, if any.
#[tactic(auto, unfolding(crate::specs::Entries::entry_of))]
fn entry_of(alloc: Global, letter: u8, numbers: &[u32]) -> Result<Option<Entry>, AllocError>
    ensures { IfOk result (λ entry. entry ≡ entry_of letter numbers.now) }
{
    let Some(front) = front_of(numbers) else {
        return Ok(None);
    };
    let Some(reason) = reason_of(alloc, letter, front.boxes.len(), front.more)? else {
        return Ok(None);
    };
    Ok(Some(Entry {
        depth: front.depth,
        player: front.player,
        boxes: Numbers::copied(alloc, front.boxes)?,
        reason,
    }))
}

/// Returns the reason that a letter and the numbers after the boxes spell, if any.
#[tactic(auto, unfolding(crate::specs::Entries::reason_of))]
fn reason_of(
    alloc: Global,
    letter: u8,
    boxes: usize,
    more: &[u32],
) -> Result<Option<Reason>, AllocError>
    ensures { IfOk result (λ reason. reason ≡ reason_of letter boxes more.now) }
{
    match letter {
        b'x' => Ok(bare(more, Reason::Expanded)),
        b's' => Ok(bare(more, Reason::Spent)),
        b'b' => bound_of(alloc, boxes, more),
        b'c' => Ok(members_of(alloc, more)?.map(|members| Reason::Crowd { members })),
        b'f' => Ok(members_of(alloc, more)?.map(|members| Reason::Frozen { members })),
        _ => Ok(None),
    }
}

fn bare(more: &[u32], reason: Reason) -> Option<Reason>
    ensures { result ≡ bare more.now reason }
{
    if more.is_empty() { Some(reason) } else { None }
}

fn bound_of(alloc: Global, boxes: usize, more: &[u32]) -> Result<Option<Reason>, AllocError>
    ensures { IfOk result (λ reason. reason ≡ bound_of boxes more.now) }
{
    if more.len() < boxes {
        return Ok(None);
    }
    let (u, v) = more.split_at(boxes);
    Ok(Some(Reason::Bound {
        u: Numbers::copied(alloc, u)?,
        v: Numbers::copied(alloc, v)?,
    }))
}

/// Returns the numbers after their count. None if the count is another.
#[tactic(auto, unfolding(crate::specs::Entries::members_of))]
fn members_of(alloc: Global, numbers: &[u32]) -> Result<Option<Numbers>, AllocError>
    ensures { IfOk result (λ members. members ≡ members_of numbers.now) }
{
    let [count, members @ ..] = numbers else {
        return Ok(None);
    };
    if members.len() != *count as usize {
        return Ok(None);
    }
    Ok(Some(Numbers::copied(alloc, members)?))
}

/// Returns the first line of a pattern that numbers spell, if any.
#[tactic(auto, unfolding(crate::specs::Entries::head_of))]
fn head_of(alloc: Global, numbers: &[u32]) -> Result<Option<Head>, AllocError>
    ensures { IfOk result (λ head. head ≡ head_of numbers.now) }
{
    let Some(front) = front_of(numbers) else {
        return Ok(None);
    };
    let Some((members, count)) = counts_of(alloc, front.more)? else {
        return Ok(None);
    };
    Ok(Some(Head {
        depth: front.depth,
        player: front.player,
        boxes: Numbers::copied(alloc, front.boxes)?,
        members,
        count,
    }))
}

/// Returns the numbers after their count, and the one number that follows them. None if there are
/// more or fewer.
#[tactic(auto, unfolding(crate::specs::Entries::counts_of))]
fn counts_of(alloc: Global, numbers: &[u32]) -> Result<Option<(Numbers, u32)>, AllocError>
    ensures { IfOk result (λ counts. counts ≡ counts_of numbers.now) }
{
    let [count, more @ ..] = numbers else {
        return Ok(None);
    };
    let count = *count as usize;
    if more.len() != count + 1 {
        return Ok(None);
    }
    Ok(Some((Numbers::copied(alloc, &more[..count])?, more[count])))
}
