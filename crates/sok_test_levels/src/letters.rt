//! Which letters a text spells, and the text of played letters.

use sok_rules::cell::Dir;
use sok_rules::cell::Dir::{Down, Left, Right, Up};
use sok_rules::fault::PlayFault;
use sok_rules::level::Level;
use sok_sketch::sketch;
use sok_text::lurd::{LurdFault, print_lurd, read_lurd};
use std::alloc::{AllocError, Global};
use std::test::Fail;

/// So many letters, a text after them, and the letters that the text spells.
type Case<'a> = (usize, &'a str, Result<&'a [Dir], LurdFault>);

/// Returns whether so many letters and a text after them spell this.
fn spells(alloc: Global, case: Case<'_>) -> Result<bool, AllocError> {
    let (times, behind, told) = case;
    let mut text = "l".repeat(alloc, times)?;
    text.push_str(behind)?;
    match read_lurd(alloc, text.as_bytes()) {
        Ok(letters) => Ok(times <= letters.len() && told == Ok(&letters[times..])),
        Err(fault) => Ok(told == Err(fault)),
    }
}

#[test]
fn letters_of_a_text(rt: HostRuntime) -> Result<(), Fail> {
    let cases: &[Case<'_>] = &[
        (0, "", Ok(&[])),
        (0, " \t\r\n", Ok(&[])),
        (0, "r", Ok(&[Right])),
        (0, " U\nl", Ok(&[Up, Left])),
        (
            0,
            "lurdLURD",
            Ok(&[Left, Up, Right, Down, Left, Up, Right, Down]),
        ),
        (0, "ulxR", Err(LurdFault::BadLetter(2))),
        (0, " x", Err(LurdFault::BadLetter(1))),
        (0, "u\0", Err(LurdFault::BadLetter(1))),
        // numbers repeat the letter after them
        (0, "\n\n2l 1U", Ok(&[Left, Left, Up])),
        (0, "02r", Ok(&[Right, Right])),
        (999_998, "2D", Ok(&[Down, Down])),
        (0, "2", Err(LurdFault::BadLetter(1))),
        (0, "2 r", Err(LurdFault::BadLetter(1))),
        (0, "0r", Err(LurdFault::BadLetter(0))),
        (0, "0x", Err(LurdFault::BadLetter(1))),
        (0, "lr1000000x", Err(LurdFault::BadLetter(9))),
        (0, "lr1000000r", Err(LurdFault::TooLong)),
        (0, "1000001r", Err(LurdFault::TooLong)),
        (0, "l18446744073709551617r", Err(LurdFault::TooLong)),
        (999_999, "2r", Err(LurdFault::TooLong)),
        (1_000_000, "00r", Err(LurdFault::BadLetter(1_000_000))),
        (1_000_000, "1", Err(LurdFault::BadLetter(1_000_001))),
        (1_000_000, "", Ok(&[])),
        (1_000_000, " x", Err(LurdFault::BadLetter(1_000_001))),
        (1_000_000, "\nL", Err(LurdFault::TooLong)),
        (1_000_000, "Lx", Err(LurdFault::TooLong)),
    ];
    for &case in cases {
        assert!(rt; spells(rt.alloc(), case)?, "{} before {:?}", case.0, case.1);
    }
    Ok(())
}

/// Returns whether letters are printed like this, or have this fault.
fn prints(alloc: Global, level: &Level, letters: &[Dir], told: Result<&[u8], PlayFault>) -> bool {
    match print_lurd(alloc, level, letters) {
        Ok(text) => told == Ok(text.as_slice()),
        Err(fault) => told == Err(fault),
    }
}

/// Letters that push are in upper case, and letters that cannot be played have no text.
#[test]
fn text_of_played_letters(rt: HostRuntime) -> Result<(), Fail> {
    let cases: &[(&[Dir], Result<&[u8], PlayFault>)] = &[
        (&[Up, Left, Left, Down, Right, Right], Ok(b"ulldRR")),
        (&[Right, Right], Err(PlayFault::Blocked(1))),
    ];
    let level = sketch::level(rt.alloc(), sketch::ROOM_OF_TWO_ROWS)?;
    for &(letters, told) in cases {
        assert!(rt; prints(rt.alloc(), &level, letters, told), "{letters:?}");
    }
    Ok(())
}
