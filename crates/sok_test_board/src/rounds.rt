//! Rounds of the flood of squares, in rows of words.

use crate::setting::board;
use sok_field::drawing::free_squares;
use sok_field::field::Field;
use sok_field::spread::spread_wide;
use sok_rules::cell::Spot;
use sok_sketch::sketch;
use std::alloc::Global;
use std::process::Abort;
use std::test::Fail;

/// Rows of squares. Each row has a word for its lower half and one for its upper half.
#[derive(Drop)]
struct Rows {
    low: Vec<u64>,
    high: Vec<u64>,
}

impl Rows {
    /// Returns so many rows, each of which is the one before with its words rotated.
    fn turned(alloc: Global, word: u64, by: u32, length: usize) -> Result<Rows, Fail> {
        Ok(Rows {
            low: turned(alloc, word, by, length)?,
            high: turned(alloc, word.rotate_left(29), by, length)?,
        })
    }

    /// Returns a row of squares, or an empty row if there is no such row.
    fn row(&self, at: Option<usize>) -> u128 {
        match at {
            Some(at) if at < self.low.len() && at < self.high.len() => {
                u128::from(self.high[at]) << 64 | u128::from(self.low[at])
            }
            _ => 0,
        }
    }
}

/// Returns so many words, each of which is the one before, rotated.
fn turned(alloc: Global, mut word: u64, by: u32, length: usize) -> Result<Vec<u64>, Fail> {
    let mut words = Vec::new(alloc);
    for _ in 0..length {
        words.push(word)?;
        word = word.rotate_left(by);
    }
    Ok(words)
}

/// Asserts that a round finds the free squares on and beside the seen ones, in each row.
fn assert_round(rt: &impl Abort, seen: &Rows, free: &Rows, out: &mut Rows) {
    let length = seen.low.len();
    assert!(rt; seen.high.len() == length);
    assert!(rt; free.low.len() == length && free.high.len() == length);
    assert!(rt; out.low.len() == length && out.high.len() == length);
    spread_wide(
        &seen.low,
        &seen.high,
        &free.low,
        &free.high,
        &mut out.low,
        &mut out.high,
    );
    for r in 0..length {
        let here = seen.row(Some(r));
        let beside = seen.row(r.checked_sub(1)) | seen.row(r.checked_add(1));
        let around = here | here << 1 | here >> 1 | beside;
        assert!(rt;
            out.row(Some(r)) == around & free.row(Some(r)),
            "row {r} of {length}"
        );
    }
}

/// Rows of each length, whether the rows go by fours or one by one.
#[test]
fn rounds_of_each_length(rt: HostRuntime) -> Result<(), Fail> {
    for length in 0..18 {
        let seen = Rows::turned(rt.alloc(), 0x8000_0400_0020_0001, 5, length)?;
        let free = Rows::turned(rt.alloc(), 0xb7fe_d3fb_6fdb_f6b5, 7, length)?;
        let mut out = Rows::turned(rt.alloc(), u64::MAX, 1, length)?;
        assert_round(&rt, &seen, &free, &mut out);
    }
    Ok(())
}

/// A round goes from the last column of the lower half into the first one of the upper half.
#[test]
fn a_round_across_the_seam(rt: HostRuntime) {
    let free = [u64::MAX];
    let mut low: [u64; 1] = [0];
    let mut high: [u64; 1] = [0];
    spread_wide(&[1 << 63], &[0], &free, &free, &mut low, &mut high);
    assert!(rt; low == [13_835_058_055_282_163_712] && high == [1]);
}

/// Returns the word of a row of squares.
fn word(field: &Field, row: u32) -> u64 {
    let mut word = 0;
    for col in 0..64 {
        if field.has(Spot { row, col }) {
            word |= 1 << col;
        }
    }
    word
}

/// Returns the words of the rows 1 to 3 of a board's free squares.
fn free_words(alloc: Global, text: &str) -> Result<[u64; 3], Fail> {
    let board = board(alloc, text)?;
    let (_, boxes) = board.start();
    let free = free_squares(&board, boxes);
    Ok([word(&free, 1), word(&free, 2), word(&free, 3)])
}

#[test]
fn free_squares_of_the_corridor(rt: HostRuntime) -> Result<(), Fail> {
    for &(text, free) in &[
        (sketch::CORRIDOR_OF_SIX_PUSHES, [112, 118, 112]),
        (sketch::CORRIDOR_WITH_THE_BOX_ON_6, [112, 110, 112]),
    ] {
        assert!(rt; free_words(rt.alloc(), text)? == free, "{text}");
    }
    Ok(())
}

/// Rounds from the square on each side of the box, until one changes nothing.
#[test]
fn rounds_in_the_corridor(rt: HostRuntime) {
    for &(free, seen, after) in &[
        ([112, 118, 112], [0, 4, 0], [0, 6, 0]),
        ([112, 118, 112], [0, 6, 0], [0, 6, 0]),
        ([112, 110, 112], [0, 64, 0], [64, 96, 64]),
        ([112, 110, 112], [64, 96, 64], [96, 96, 96]),
        ([112, 110, 112], [96, 96, 96], [112, 96, 112]),
        ([112, 110, 112], [112, 96, 112], [112, 96, 112]),
    ] {
        let mut out: [u64; 3] = [0; 3];
        let mut beyond: [u64; 3] = [0; 3];
        spread_wide(&seen, &[0; 3], &free, &[0; 3], &mut out, &mut beyond);
        assert!(rt; out == after && beyond == [0; 3], "{seen:?}");
    }
}
