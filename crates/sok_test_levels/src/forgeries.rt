//! Certificates that are forged: none is accepted with a claim that is false.

ghost use Rattle.std.specs.Prelude.{◌<◌, length, vec_len};

use crate::answers::{TWO_CHAMBERS, answered};
use crate::verdicts::judged;
use sok_board::board::Board;
use sok_cert::claim::Claim;
use sok_sketch::chance::next;
use sok_sketch::{sets, sketch};
use std::alloc::Global;
use std::process::Abort;
use std::test::Fail;

/// Returns whether a claim is true of a level whose solutions have at least so many pushes.
fn is_true(claim: Claim, fewest: u32) -> bool {
    match claim {
        Claim::Pushes(pushes) => pushes <= fewest,
        Claim::Unsolvable => false,
    }
}

/// Judges a text with another byte at a place. Returns the claim, if it is accepted.
fn claim_with(
    alloc: Global,
    board: &Board,
    text: &[u8],
    place: usize,
    byte: u8,
) -> Result<Option<Claim>, Fail>
    requires { place < length text.now }
{
    let mut changed = Vec::from_slice(alloc, text)?;
    changed[place] = byte;
    Ok(judged(alloc, board, changed.as_slice()).ok())
}

#[test]
fn corridor_with_each_byte_changed(rt: HostRuntime) -> Result<(), Fail> {
    let alloc = rt.alloc();
    let board = sets::board(alloc, sketch::CORRIDOR_OF_SIX_PUSHES)?;
    let text = b"sokoban-certificate 1\npushes 6\nx 0 4 1 5\nx 1 5 1 6\nb 2 6 1 7 4 0\nend\n";
    for place in 0..text.len() {
        for byte in 0..=255 {
            if let Some(claim) = claim_with(alloc, &board, text, place, byte)? {
                assert!(rt; is_true(claim, 6), "{byte} at {place}");
            }
        }
    }
    Ok(())
}

/// Returns the lines of the certificate that the solver writes for a level.
fn lines_of(alloc: Global, drawn: &str) -> Result<Vec<String>, Fail> {
    let text = String::from_utf8(answered(alloc, drawn, 1_000)?.cert)?;
    let mut lines = Vec::new(alloc);
    for line in text.lines() {
        lines.push(String::from_str(alloc, line)?)?;
    }
    Ok(lines)
}

/// Returns a line whose number at one place is raised or lowered by one, if there is one.
fn renumbered(alloc: Global, line: &str, place: usize, raised: bool) -> Result<String, Fail> {
    let mut changed = String::new(alloc);
    for (index, field) in line.split(' ').enumerate() {
        if index > 0 {
            changed.push(' ')?;
        }
        match field.parse::<u32>() {
            Ok(number) if index == place && raised => {
                changed.push_str(&format!(in alloc; "{}", number.saturating_add(1))?)?;
            }
            Ok(number) if index == place => {
                changed.push_str(&format!(in alloc; "{}", number.saturating_sub(1))?)?;
            }
            _ => changed.push_str(field)?,
        }
    }
    Ok(changed)
}

/// Returns the line of an entry with another reason.
fn reasoned(alloc: Global, line: &str, letter: &str, numbers: &str) -> Result<String, Fail> {
    let boxes = match line.split(' ').nth(3) {
        Some(field) => field.parse::<usize>().unwrap_or(0),
        None => 0,
    };
    let mut changed = String::from_str(alloc, letter)?;
    for field in line.split(' ').skip(1).take(boxes.saturating_add(3)) {
        changed.push(' ')?;
        changed.push_str(field)?;
    }
    changed.push_str(numbers)?;
    Ok(changed)
}

/// Returns a line that is changed in one of several ways.
fn changed(alloc: Global, line: &str, state: &mut u64) -> Result<String, Fail> {
    match next(state, 8) {
        0 => reasoned(alloc, line, "x", ""),
        1 => reasoned(alloc, line, "s", ""),
        2 => reasoned(alloc, line, "c", " 1 0"),
        3 => reasoned(alloc, line, "f", " 1 0"),
        4 | 5 => renumbered(alloc, line, next(state, 8), true),
        _ => renumbered(alloc, line, next(state, 8), false),
    }
}

/// Changes, doubles, drops or exchanges lines of a certificate.
fn forge(alloc: Global, lines: &mut Vec<String>, state: &mut u64) -> Result<(), Fail>
    requires { 0 < vec_len lines.old }
{
    let first = next(state, lines.len());
    let second = next(state, lines.len());
    match next(state, 6) {
        0 => lines.swap(first, second),
        1 => drop(lines.remove(first)),
        2 => {
            let line = lines[second].clone()?;
            lines.insert(first, line)?;
        }
        _ => {
            let line = changed(alloc, &lines[first], state)?;
            lines[first] = line;
        }
    }
    Ok(())
}

/// Returns the line of a claim, changed or the same.
fn claimed(alloc: Global, line: &str, state: &mut u64) -> Result<String, Fail> {
    match next(state, 3) {
        0 => Ok(String::from_str(alloc, "unsolvable")?),
        1 => renumbered(alloc, line, 1, true),
        _ => Ok(String::from_str(alloc, line)?),
    }
}

/// Returns the lines of a certificate, perhaps with another claim.
fn reclaimed(alloc: Global, lines: &[String], state: &mut u64) -> Result<Vec<String>, Fail> {
    let mut own = Vec::new(alloc);
    for (index, line) in lines.iter().enumerate() {
        if index == 1 {
            own.push(claimed(alloc, line, state)?)?;
        } else {
            own.push(line.clone()?)?;
        }
    }
    Ok(own)
}

/// Changes lines of a certificate in one to three ways.
fn forge_on(alloc: Global, lines: &mut Vec<String>, state: &mut u64) -> Result<(), Fail> {
    for _ in 0..=next(state, 3) {
        if !lines.is_empty() {
            forge(alloc, lines, state)?;
        }
    }
    Ok(())
}

/// Returns the text of some lines.
fn text_of(alloc: Global, lines: &[String]) -> Result<String, Fail> {
    let mut text = String::new(alloc);
    for line in lines {
        text.push_str(line)?;
        text.push('\n')?;
    }
    Ok(text)
}

/// Returns the text of a certificate that is changed in one to three ways.
fn forged(alloc: Global, lines: &[String], state: &mut u64) -> Result<String, Fail> {
    let mut own = reclaimed(alloc, lines, state)?;
    forge_on(alloc, &mut own, state)?;
    text_of(alloc, &own)
}

/// Returns whether a forged certificate is accepted. Asserts that its claim is true if it is.
fn is_accepted(
    rt: &impl Abort,
    alloc: Global,
    board: &Board,
    lines: &[String],
    fewest: u32,
    state: &mut u64,
) -> Result<bool, Fail> {
    let text = forged(alloc, lines, state)?;
    if let Ok(claim) = judged(alloc, board, text.as_bytes()) {
        assert!(rt; is_true(claim, fewest), "{text}");
        return Ok(true);
    }
    Ok(false)
}

/// Forges 5,000 certificates of a level. Asserts that some are accepted, and that the claim of each
/// of these is true.
fn forge_for(rt: &impl Abort, alloc: Global, drawn: &str, fewest: u32) -> Result<(), Fail> {
    let board = sets::board(alloc, drawn)?;
    let lines = lines_of(alloc, drawn)?;
    let mut state = 1;
    let mut accepted = false;
    for _ in 0..5_000 {
        if is_accepted(rt, alloc, &board, &lines, fewest, &mut state)? {
            accepted = true;
        }
    }
    assert!(rt; accepted);
    Ok(())
}

#[test]
fn forged_certificates_of_four_levels(rt: HostRuntime) -> Result<(), Fail> {
    for &(drawn, fewest) in &[
        (sketch::ROOM_OF_TWO_ROWS, 2),
        (sketch::CORRIDOR_OF_SIX_PUSHES, 6),
        (sketch::TWO_BOXES_AND_THREE_GOALS, 2),
        (TWO_CHAMBERS, 4),
    ] {
        forge_for(&rt, rt.alloc(), drawn, fewest)?;
    }
    Ok(())
}
