//! Solutions and certificates that are offered for a level.

use sok_board::board::Board;
use sok_book::fault::BookFault;
use sok_book::offering::judge_letters;
use sok_book::proving::judge_proof;
use sok_book::writing::lurd_of;
use sok_cert::claim::Claim;
use sok_rules::cell::Dir;
use sok_rules::fault::{Memory, PlayFault};
use sok_rules::level::Level;
use sok_sketch::sets::board;
use sok_sketch::sketch::{ROOM_OF_TWO_ROWS, level};
use sok_text::lurd::read_lurd;
use std::alloc::Global;
use std::test::Fail;

/// Returns the pushes and moves of letters that are offered, or the fault.
fn judged(alloc: Global, room: &Level, letters: &[Dir]) -> Result<(u64, u64), BookFault> {
    let tally = judge_letters(alloc, room, letters)?;
    Ok((tally.pushes, tally.moves))
}

/// Returns whether letters are written as this text.
fn are_written(alloc: Global, room: &Level, letters: &[Dir], text: &str) -> Result<bool, Memory> {
    Ok(lurd_of(alloc, room, letters)?.as_str() == text)
}

#[test]
fn letters_are_judged_and_written(rt: HostRuntime) -> Result<(), Fail> {
    let room = level(rt.alloc(), ROOM_OF_TWO_ROWS)?;
    for &(text, written, answer) in &[
        ("ulldrr", "ulldRR", Ok((2, 6))),
        ("rlulldrurrdlulldrr", "rlulldRurrdLulldRR", Ok((4, 18))),
        ("ulld", "ulld", Err(BookFault::NotSolved)),
        ("uu", "u", Err(BookFault::Letters(PlayFault::Blocked(1)))),
    ] {
        let letters = read_lurd(rt.alloc(), text.as_bytes())?;
        assert!(rt; judged(rt.alloc(), &room, &letters) == answer, "{text}");
        assert!(rt;
            are_written(rt.alloc(), &room, &letters, written)?,
            "{text}"
        );
    }
    Ok(())
}

/// Judges a certificate for a level whose best has `best` pushes.
fn proved(alloc: Global, board: &Board, best: Option<u64>) -> Result<Claim, BookFault> {
    let text = b"sokoban-certificate 1\npushes 2\nb 0 6 1 5 2 0\nend\n";
    judge_proof(alloc, board, best, text.as_slice())
}

#[test]
fn a_proof_is_about_the_best(rt: HostRuntime) -> Result<(), Fail> {
    let board = board(rt.alloc(), ROOM_OF_TWO_ROWS)?;
    for &(best, answer) in &[
        (None, Err(BookFault::NoBest)),
        (Some(4), Err(BookFault::ClaimDiffers)),
        (Some(2), Ok(Claim::Pushes(2))),
    ] {
        assert_eq!(rt; proved(rt.alloc(), &board, best), answer);
    }
    Ok(())
}
