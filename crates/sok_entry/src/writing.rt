//! Writes the text of a certificate, whole or line by line. If memory is refused, the public
//! functions that append leave the text as it was.

ghost use Rattle.std.specs.Prelude.{◌≡◌, ◌+◌, ◌<◌, ◌≤◌, ◌++◌, ◌∷◌, [], IfOk, OnErr, OnOk, length, map};
ghost use Rattle.std.specs.Prelude.{vec_capacity, vec_len, decimal};
ghost use Rattle.std.specs.List.{flat_map, list_any};
ghost use Rattle.sok_entry.specs.Text.{header, claim_line, entry_from, entry_line, entry_text, last_line};
ghost use Rattle.sok_entry.specs.Text.{letter_of, numbers_of_reason, spaced, ended};
ghost use Rattle.sok_entry.specs.Text.{inner_line, inner_of, inner_text, is_pattern, reason_alike};
ghost use Rattle.sok_entry.specs.Text.{text_of, version_of, Fits, Grows, SpellsCertificate};

use crate::claim::Claim;
use crate::entry::{Certificate, Entry, Inner, InnerReason, Reason};
use crate::inners::Inners;
use crate::version::Version;
use itoa::Buffer;
use sok_rules::fault::Memory;
use std::alloc::{AllocError, Global};

/// Returns the text of a certificate: the header, the claim, the lines of each entry, and `end`.
/// Each line ends with LF. The version is 1 if no entry is a pattern, otherwise 2.
pub fn write(alloc: Global, certificate: &Certificate) -> Result<Vec<u8>, Memory>
    requires { Fits certificate.now.claim certificate.now.entries.items }
    ensures exact { IfOk result (λ text. text.items
        ≡ text_of certificate.now.claim certificate.now.entries.items) }
    ensures spells { IfOk result (λ text.
        SpellsCertificate text.items certificate.now.claim certificate.now.entries.items) }
{
    let mut text = Vec::new(alloc);
    push_front(
        &mut text,
        version_of(&certificate.entries),
        &certificate.claim,
    )?;
    for entry in &certificate.entries {
        push_entry(
            &mut text,
            entry.depth,
            entry.player,
            entry.boxes.as_slice(),
            &entry.reason,
        )?;
    }
    push_end(&mut text)?;
    Ok(text)
}

/// Returns the version in which a certificate with these entries is written.
pub fn version_of(entries: &[Entry]) -> Version
    ensures { result ≡ version_of entries.now }
{
    if has_pattern(entries) {
        Version::Two
    } else {
        Version::One
    }
}

fn has_pattern(entries: &[Entry]) -> bool
    ensures { result ≡ list_any (λ entry. is_pattern entry.reason) entries.now }
{
    entries.iter().any(|entry| is_pattern(&entry.reason))
}

/// Returns whether a reason is a pattern. Version 1 has none.
pub fn is_pattern(reason: &Reason) -> bool
    ensures { result ≡ is_pattern reason.now }
{
    matches!(reason, Reason::Pattern { .. })
}

/// The greatest number of bytes before the entries: 22 of the header and 18 of the claim.
const FRONT: usize = 40;

/// Appends the header and the claim. Reserves their room first, so that an error leaves the text as
/// it was.
pub fn push_front(text: &mut Vec<u8>, version: Version, claim: &Claim) -> Result<(), AllocError>
    ensures lines { OnOk result (text.new.items
        ≡ text.old.items ++ (ended (header version) ++ ended (claim_line claim.now))) }
    ensures capacity { vec_capacity text.old ≤ vec_capacity text.new }
    ensures refused { OnErr result (text.new.items ≡ text.old.items) }
{
    text.reserve(FRONT)?;
    text.extend_from_slice(header_of(version)).unwrap();
    push_claim(text, claim).unwrap();
    Ok(())
}

/// Returns the first line with its end, 22 bytes.
#[tactic(auto, unfolding(crate::specs::Text::header))]
fn header_of(version: Version) -> &'static [u8]
    ensures line { result.now ≡ ended (header version) }
    ensures bytes { length result.now ≡ 22 }
{
    match version {
        Version::One => b"sokoban-certificate 1\n",
        Version::Two => b"sokoban-certificate 2\n",
    }
}

/// Appends the line of the claim, at most 18 bytes.
#[tactic(auto, unfolding(crate::specs::Text::claim_line))]
fn push_claim(text: &mut Vec<u8>, claim: &Claim) -> Result<(), AllocError>
    ensures line { OnOk result (text.new.items ≡ text.old.items ++ ended (claim_line claim.now)) }
    ensures capacity { vec_capacity text.old ≤ vec_capacity text.new }
    ensures full { OnErr result (vec_capacity text.old < vec_len text.old + 18) }
{
    match claim {
        Claim::Pushes(pushes) => {
            text.extend_from_slice(b"pushes ")?;
            push_decimal(text, *pushes as usize)?;
            push_line_feed(text)
        }
        Claim::Unsolvable => text.extend_from_slice(b"unsolvable\n"),
    }
}

/// Appends the lines of an entry, which is given in its parts. Succeeds if the text has room for
/// them. On an error, it takes back what it has appended, so that the text is as it was.
pub fn push_entry(
    text: &mut Vec<u8>,
    depth: u32,
    player: u32,
    boxes: &[u32],
    reason: &Reason,
) -> Result<(), AllocError>
    ensures lines { OnOk result (text.new.items ≡ text.old.items
        ++ entry_text (entry_from depth player boxes.now reason.now)) }
    ensures capacity { vec_capacity text.old ≤ vec_capacity text.new }
    ensures full { OnErr result (vec_capacity text.old < vec_len text.old
        + length (entry_text (entry_from depth player boxes.now reason.now))) }
    ensures refused { OnErr result (text.new.items ≡ text.old.items) }
{
    let kept = text.len();
    let pushed = push_lines(text, depth, player, boxes, reason);
    if pushed.is_err() {
        text.truncate(kept);
    }
    pushed
}

/// Appends the lines of an entry, or only a front of them if memory is refused.
fn push_lines(
    text: &mut Vec<u8>,
    depth: u32,
    player: u32,
    boxes: &[u32],
    reason: &Reason,
) -> Result<(), AllocError>
    ensures lines { OnOk result (text.new.items ≡ text.old.items
        ++ entry_text (entry_from depth player boxes.now reason.now)) }
    ensures capacity { vec_capacity text.old ≤ vec_capacity text.new }
    ensures full { OnErr result (vec_capacity text.old < vec_len text.old
        + length (entry_text (entry_from depth player boxes.now reason.now))) }
    ensures front { OnErr result (Grows text.old.items text.new.items) }
{
    push_line(text, depth, player, boxes, reason)?;
    push_inner(text, reason)
}

/// Appends the lines of the inner positions, if the reason is a pattern.
fn push_inner(text: &mut Vec<u8>, reason: &Reason) -> Result<(), AllocError>
    ensures lines { OnOk result
        (text.new.items ≡ text.old.items ++ inner_text (inner_of reason.now)) }
    ensures capacity { vec_capacity text.old ≤ vec_capacity text.new }
    ensures full { OnErr result (vec_capacity text.old
        < vec_len text.old + length (inner_text (inner_of reason.now))) }
    ensures front { OnErr result (Grows text.old.items text.new.items) }
{
    let Reason::Pattern { inner, .. } = reason else {
        return Ok(());
    };
    match inner.lines() {
        Some(lines) => text.extend_from_slice(lines),
        None => push_inner_lines(text, inner.as_slice()),
    }
}

impl Inners {
    /// Makes a list that can be shared, with its lines, for positions that are written many times.
    pub fn with_lines(alloc: Global, items: Vec<Inner>) -> Result<Inners, AllocError>
        ensures { IfOk result (λ inners. inners ≡ items.items) }
    {
        let mut lines = Vec::new(alloc);
        push_inner_lines(&mut lines, &items)?;
        Inners::of(alloc, items, Some(lines))
    }
}

/// Appends the lines of inner positions.
pub(crate) fn push_inner_lines(text: &mut Vec<u8>, inner: &[Inner]) -> Result<(), AllocError>
    ensures lines { OnOk result (text.new.items ≡ text.old.items ++ inner_text inner.now) }
    ensures capacity { vec_capacity text.old ≤ vec_capacity text.new }
    ensures full { OnErr result
        (vec_capacity text.old < vec_len text.old + length (inner_text inner.now)) }
    ensures front { OnErr result (Grows text.old.items text.new.items) }
{
    for position in inner {
        push_inner_line(text, position)?;
    }
    Ok(())
}

/// Appends the line of an inner position.
#[tactic(auto, unfolding(crate::specs::Text::entry_line))]
fn push_inner_line(text: &mut Vec<u8>, inner: &Inner) -> Result<(), AllocError>
    ensures line { OnOk result (text.new.items ≡ text.old.items ++ ended (inner_line inner.now)) }
    ensures capacity { vec_capacity text.old ≤ vec_capacity text.new }
    ensures full { OnErr result
        (vec_capacity text.old < vec_len text.old + length (ended (inner_line inner.now))) }
    ensures front { OnErr result (Grows text.old.items text.new.items) }
{
    let letter = letter_of_inner(&inner.reason);
    push_position(
        text,
        letter,
        inner.depth,
        inner.player,
        inner.boxes.as_slice(),
    )?;
    push_inner_reason(text, &inner.reason)?;
    push_line_feed(text)
}

fn letter_of_inner(reason: &InnerReason) -> u8
    ensures { result ≡ letter_of (reason_alike reason.now) }
{
    match reason {
        InnerReason::Expanded => b'x',
        InnerReason::Crowd { .. } => b'c',
        InnerReason::Frozen { .. } => b'f',
    }
}

fn push_inner_reason(text: &mut Vec<u8>, reason: &InnerReason) -> Result<(), AllocError>
    ensures numbers { OnOk result (text.new.items
        ≡ text.old.items ++ spaced (numbers_of_reason (reason_alike reason.now))) }
    ensures capacity { vec_capacity text.old ≤ vec_capacity text.new }
    ensures full { OnErr result (vec_capacity text.old
        < vec_len text.old + length (spaced (numbers_of_reason (reason_alike reason.now)))) }
    ensures front { OnErr result (Grows text.old.items text.new.items) }
{
    match reason {
        InnerReason::Expanded => Ok(()),
        InnerReason::Crowd { members } | InnerReason::Frozen { members } => {
            push_counted(text, members.as_slice())
        }
    }
}

/// Appends the first line of an entry, or only a front of it if memory is refused.
#[tactic(auto, unfolding(crate::specs::Text::entry_line))]
fn push_line(
    text: &mut Vec<u8>,
    depth: u32,
    player: u32,
    boxes: &[u32],
    reason: &Reason,
) -> Result<(), AllocError>
    ensures line { OnOk result (text.new.items ≡ text.old.items
        ++ ended (entry_line (entry_from depth player boxes.now reason.now))) }
    ensures capacity { vec_capacity text.old ≤ vec_capacity text.new }
    ensures full { OnErr result (vec_capacity text.old < vec_len text.old
        + length (ended (entry_line (entry_from depth player boxes.now reason.now)))) }
    ensures front { OnErr result (Grows text.old.items text.new.items) }
{
    push_position(text, letter_of(reason), depth, player, boxes)?;
    push_reason(text, reason)?;
    push_line_feed(text)
}

/// Appends the letter of a reason and the numbers of a position.
fn push_position(
    text: &mut Vec<u8>,
    letter: u8,
    depth: u32,
    player: u32,
    boxes: &[u32],
) -> Result<(), AllocError>
    ensures position { OnOk result (text.new.items ≡ text.old.items
        ++ letter ∷ spaced (depth ∷ player ∷ length boxes.now ∷ boxes.now)) }
    ensures capacity { vec_capacity text.old ≤ vec_capacity text.new }
    ensures full { OnErr result (vec_capacity text.old < vec_len text.old
        + length (letter ∷ spaced (depth ∷ player ∷ length boxes.now ∷ boxes.now))) }
    ensures front { OnErr result (Grows text.old.items text.new.items) }
{
    text.push(letter)?;
    push_number(text, depth as usize)?;
    push_number(text, player as usize)?;
    push_counted(text, boxes)
}

/// Appends the line `end`. Succeeds if the text has room for it. On an error, the text is as it
/// was.
#[tactic(auto, unfolding(crate::specs::Text::last_line))]
pub fn push_end(text: &mut Vec<u8>) -> Result<(), AllocError>
    ensures line { OnOk result (text.new.items ≡ text.old.items ++ ended last_line) }
    ensures capacity { vec_capacity text.old ≤ vec_capacity text.new }
    ensures full { OnErr result
        (vec_capacity text.old < vec_len text.old + length (ended last_line)) }
    ensures refused { OnErr result (text.new.items ≡ text.old.items) }
{
    text.extend_from_slice(b"end\n")
}

fn letter_of(reason: &Reason) -> u8
    ensures { result ≡ letter_of reason.now }
{
    match reason {
        Reason::Expanded => b'x',
        Reason::Spent => b's',
        Reason::Bound { .. } => b'b',
        Reason::Crowd { .. } => b'c',
        Reason::Frozen { .. } => b'f',
        Reason::Pattern { .. } => b'p',
    }
}

fn push_reason(text: &mut Vec<u8>, reason: &Reason) -> Result<(), AllocError>
    ensures numbers { OnOk result
        (text.new.items ≡ text.old.items ++ spaced (numbers_of_reason reason.now)) }
    ensures capacity { vec_capacity text.old ≤ vec_capacity text.new }
    ensures full { OnErr result (vec_capacity text.old
        < vec_len text.old + length (spaced (numbers_of_reason reason.now))) }
    ensures front { OnErr result (Grows text.old.items text.new.items) }
{
    match reason {
        Reason::Expanded | Reason::Spent => Ok(()),
        Reason::Bound { u, v } => {
            push_numbers(text, u.as_slice())?;
            push_numbers(text, v.as_slice())
        }
        Reason::Crowd { members } | Reason::Frozen { members } => {
            push_counted(text, members.as_slice())
        }
        Reason::Pattern { members, inner } => {
            push_counted(text, members.as_slice())?;
            push_number(text, inner.as_slice().len())
        }
    }
}

/// Appends numbers, after their count.
fn push_counted(text: &mut Vec<u8>, numbers: &[u32]) -> Result<(), AllocError>
    ensures numbers { OnOk result
        (text.new.items ≡ text.old.items ++ spaced (length numbers.now ∷ numbers.now)) }
    ensures capacity { vec_capacity text.old ≤ vec_capacity text.new }
    ensures full { OnErr result (vec_capacity text.old
        < vec_len text.old + length (spaced (length numbers.now ∷ numbers.now))) }
    ensures front { OnErr result (Grows text.old.items text.new.items) }
{
    push_number(text, numbers.len())?;
    push_numbers(text, numbers)
}

fn push_numbers(text: &mut Vec<u8>, numbers: &[u32]) -> Result<(), AllocError>
    ensures numbers { OnOk result (text.new.items ≡ text.old.items ++ spaced numbers.now) }
    ensures capacity { vec_capacity text.old ≤ vec_capacity text.new }
    ensures full { OnErr result
        (vec_capacity text.old < vec_len text.old + length (spaced numbers.now)) }
    ensures front { OnErr result (Grows text.old.items text.new.items) }
{
    for number in numbers {
        push_number(text, *number as usize)?;
    }
    Ok(())
}

/// Appends a space and a number. Most numbers have at most three digits; their digits are computed
/// here.
fn push_number(text: &mut Vec<u8>, number: usize) -> Result<(), AllocError>
    ensures number { OnOk result (text.new.items ≡ text.old.items ++ spaced (number ∷ [])) }
    ensures capacity { vec_capacity text.old ≤ vec_capacity text.new }
    ensures full { OnErr result
        (vec_capacity text.old < vec_len text.old + length (spaced (number ∷ []))) }
    ensures front { OnErr result (Grows text.old.items text.new.items) }
{
    if number < 10 {
        return text.extend_from_slice(&[b' ', b'0' + number as u8]);
    }
    if number < 100 {
        let (tens, ones) = ((number / 10) as u8, (number % 10) as u8);
        return text.extend_from_slice(&[b' ', b'0' + tens, b'0' + ones]);
    }
    if number < 1_000 {
        let rest = number % 100;
        let (tens, ones) = ((rest / 10) as u8, (rest % 10) as u8);
        let hundreds = (number / 100) as u8;
        return text.extend_from_slice(&[b' ', b'0' + hundreds, b'0' + tens, b'0' + ones]);
    }
    text.push(b' ')?;
    push_decimal(text, number)
}

fn push_decimal(text: &mut Vec<u8>, number: usize) -> Result<(), AllocError>
    ensures number { OnOk result (text.new.items ≡ text.old.items ++ decimal number) }
    ensures capacity { vec_capacity text.old ≤ vec_capacity text.new }
    ensures full { OnErr result
        (vec_capacity text.old < vec_len text.old + length (decimal number)) }
    ensures refused { OnErr result (text.new.items ≡ text.old.items) }
{
    let mut digits = Buffer::new();
    text.extend_from_slice(digits.format(number).as_bytes())
}

fn push_line_feed(text: &mut Vec<u8>) -> Result<(), AllocError>
    ensures line { OnOk result (text.new.items ≡ text.old.items ++ ended []) }
    ensures capacity { vec_capacity text.old ≤ vec_capacity text.new }
    ensures full { OnErr result (vec_capacity text.old < vec_len text.old + 1) }
    ensures refused { OnErr result (text.new.items ≡ text.old.items) }
{
    text.push(b'\n')?;
    Ok(())
}
