//! LURD: the letters of a text (Sokoban Wiki, "Level format", "Solution").

ghost use Rattle.std.specs.Prelude.{◌≡◌, ◌⊎◌, ◌∷◌, ◌++◌, ℕ, List, [], IfOk, MatchResult, Some};
ghost use Rattle.std.specs.Prelude.{replicate};
ghost use Rattle.sok_rules.specs.declared.cell.Dir.{Dir};
ghost use Rattle.sok_rules.specs.Replay.{IsReplayFault};
ghost use Rattle.sok_text.specs.Lurd.{is_blank, direction, Spells, GoesWrong};
ghost use Rattle.sok_text.specs.Lurd.{first_direction};
ghost use Rattle.sok_text.specs.Lurd.{lurd_fault_number, lurd_fault_words};
ghost use Rattle.sok_text.specs.Marked.{marked_letter, IsMarkedText, MarkedTextsSpell};
ghost use Rattle.sok_text.specs.declared.lurd.LurdFault.{LurdFault};
ghost use Rattle.sok_text.specs.declared.lurd.LurdFault.TheVariants as lurd;

use crate::count::{cut_digits, times};
use sok_rules::cell::Dir;
use sok_rules::fault::PlayFault;
use sok_rules::level::Level;
use sok_rules::play::mark_pushes;
use std::alloc::{AllocError, AllocFailed, Global};
use std::fmt;
use thiserror::Error;

/// The maximum number of letters in a text that is read.
pub const LIMIT: usize = 1_000_000;

/// Why a text is not a list of letters. It is displayed as its name, followed by its argument if it
/// has one.
#[derive(Clone, Copy, Debug, PartialEq, Eq, Error)]
pub enum LurdFault {
    /// The place, in bytes from 0, of a byte that is not a letter, a digit or a blank; of what
    /// follows a number and is not a letter, which may be the end of the text; or of a number that
    /// is 0.
    BadLetter(usize),
    /// There are more than 1,000,000 letters.
    TooLong,
    /// Memory was refused.
    Memory,
}

impl LurdFault {
    /// Returns the number with which the fault is printed.
    pub fn number(&self) -> u8
        ensures { result ≡ lurd_fault_number self.now }
    {
        match self {
            LurdFault::BadLetter(_) => 11,
            LurdFault::TooLong => 14,
            LurdFault::Memory => 40,
        }
    }
}

impl fmt::Display for LurdFault {
    ghost output = { λ fault. Some (lurd_fault_words fault) };

    fn fmt<W: fmt::Write>(&self, f: &mut fmt::Formatter<W>) -> fmt::Result {
        match self {
            LurdFault::BadLetter(at) => write!(f, "BadLetter {at}"),
            LurdFault::TooLong => write!(f, "TooLong"),
            LurdFault::Memory => write!(f, "Memory"),
        }
    }
}

impl From<AllocError> for LurdFault {
    ghost from_gives = { λ _ fault. fault ≡ lurd.Memory };

    fn from(_error: AllocError) -> LurdFault {
        LurdFault::Memory
    }
}

impl<T: Drop> From<AllocFailed<T>> for LurdFault {
    ghost from_gives = { λ _ fault. fault ≡ lurd.Memory };

    fn from(_error: AllocFailed<T>) -> LurdFault {
        LurdFault::Memory
    }
}

/// Reads a list of letters: `l`, `u`, `r` and `d`, in either case. A decimal number directly before
/// a letter repeats it. Spaces, tabs and ends of lines may stand between letters.
///
/// Errors: the first one in the text, from the left, which is `BadLetter`, or `TooLong` at the
/// letter that exceeds the limit; `Memory`.
pub fn read_lurd(alloc: Global, text: &[u8]) -> Result<Vec<Dir>, LurdFault>
    ensures { MatchResult result (λ letters. Spells text.now letters.items)
        (λ fault. (fault ≡ lurd.Memory) ⊎ GoesWrong text.now fault) }
{
    let mut letters = Vec::new(alloc);
    let mut left = text;
    while !left.is_empty() {
        if is_blank(left[0]) {
            left = &left[1..];
            continue;
        }
        let (digits, behind) = cut_digits(left);
        let Some(dir) = first_direction(behind) else {
            return Err(LurdFault::BadLetter(text.len() - behind.len()));
        };
        let count = times(digits);
        if count == 0 {
            return Err(LurdFault::BadLetter(text.len() - left.len()));
        }
        if count > LIMIT - letters.len() {
            return Err(LurdFault::TooLong);
        }
        put(&mut letters, dir, count)?;
        left = &behind[1..];
    }
    Ok(letters)
}

/// Appends a letter `count` times.
fn put(letters: &mut Vec<Dir>, dir: Dir, count: usize) -> Result<(), AllocError>
    ensures { IfOk result (λ _. letters.new.items ≡ letters.old.items ++ replicate count dir) }
{
    for _time in 0..count {
        letters.push(dir)?;
    }
    Ok(())
}

/// Returns the direction of the letter with which a text begins, if it begins with one.
fn first_direction(text: &[u8]) -> Option<Dir>
    ensures { result ≡ first_direction text.now }
{
    direction(*text.first()?)
}

fn is_blank(byte: u8) -> bool
    ensures { result ≡ is_blank byte }
{
    byte == b' ' || byte == b'\t' || byte == b'\n' || byte == b'\r'
}

/// Returns the direction that a letter stands for, in either case.
fn direction(letter: u8) -> Option<Dir>
    ensures { result ≡ direction letter }
{
    match letter {
        b'L' | b'l' => Some(Dir::Left),
        b'U' | b'u' => Some(Dir::Up),
        b'R' | b'r' => Some(Dir::Right),
        b'D' | b'd' => Some(Dir::Down),
        _ => None,
    }
}

/// Returns the marked text of a list of letters, of any length, that is played from the start of a
/// level: one letter for each direction, in upper case exactly if it pushes.
///
/// Errors: `Blocked` with the place of the first letter that is not legal; `Memory`.
pub fn print_lurd(alloc: Global, level: &Level, dirs: &[Dir]) -> Result<Vec<u8>, PlayFault>
    ensures { MatchResult result
        (λ text. IsMarkedText level.now dirs.now text.items) (IsReplayFault level.now dirs.now) }
{
    let marks = mark_pushes(alloc, level, dirs)?;
    let mut text = Vec::with_capacity(alloc, dirs.len())?;
    for (at, dir) in dirs.iter().enumerate() {
        text.push(letter(*dir, marks[at]))?;
    }
    Ok(text)
}

/// Returns the letter of a direction, in upper case if it pushes.
fn letter(dir: Dir, pushes: bool) -> u8
    ensures { result ∷ [] ≡ marked_letter dir pushes }
{
    match (dir, pushes) {
        (Dir::Left, true) => b'L',
        (Dir::Left, false) => b'l',
        (Dir::Up, true) => b'U',
        (Dir::Up, false) => b'u',
        (Dir::Right, true) => b'R',
        (Dir::Right, false) => b'r',
        (Dir::Down, true) => b'D',
        (Dir::Down, false) => b'd',
    }
}

/// A marked text spells its letters, if there are no more than a text may have. So `read_lurd`
/// returns them.
pub fn marked_texts_spell_their_letters()
    ensures { MarkedTextsSpell }
{}

/// A text spells at most one list of letters and has at most one fault, and it never has both.
pub fn texts_have_one_reading()
    ensures spelled { (text : List ℕ) (v w : List Dir) → Spells text v → Spells text w → v ≡ w }
    ensures wrong { (text : List ℕ) (f g : LurdFault)
        → GoesWrong text f → GoesWrong text g → f ≡ g }
    ensures apart { (text : List ℕ) (w : List Dir) (f : LurdFault)
        → Spells text w → GoesWrong text f → ⊥ }
{}
