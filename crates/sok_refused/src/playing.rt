//! Play in a session: letters that are undone and played again, and a walk to and fro whose letters
//! ask for memory again and again.

ghost use Rattle.std.specs.Prelude.{◌<◌};

use crate::telling::Told;
use sok_rules::cell::{Dir, Spot};
use sok_rules::fault::{LevelFault, Memory, PlayFault};
use sok_rules::level::Level;
use sok_rules::session::Session;
use sok_sketch::acts::{Act, answer};
use sok_sketch::sketch;
use sok_text::xsb::cell_of;
use std::alloc::Global;

/// What a session shows: the letters played, how many of them push, and the middle row.
#[derive(Clone, Copy)]
struct Shown {
    letters: &'static [Dir],
    pushes: u64,
    row: &'static str,
}

const AT_START: Shown = Shown {
    letters: &[],
    pushes: 0,
    row: "#.@$   #",
};

const PUSHED: Shown = Shown {
    letters: &[Dir::Right],
    pushes: 1,
    row: "#. @$  #",
};

/// Acts, what they answer, and what the session shows after them.
const ACTS: [(Act, Result<bool, PlayFault>, Shown); 10] = [
    (Act::Play(Dir::Right), Ok(true), PUSHED),
    (Act::Undo, Ok(true), AT_START),
    (Act::Redo, Ok(true), PUSHED),
    (Act::Undo, Ok(true), AT_START),
    (Act::Undo, Ok(false), AT_START),
    // a refused letter keeps the undone ones
    (Act::Play(Dir::Up), Err(PlayFault::Blocked(0)), AT_START),
    (Act::Redo, Ok(true), PUSHED),
    (Act::Redo, Ok(false), PUSHED),
    (Act::Reset, Ok(true), AT_START),
    (Act::Redo, Ok(false), AT_START),
];

/// How many letters the walk has.
const WALK: usize = 100;

/// Plays on a copy of the corridor: the acts, and the walk.
pub(crate) fn told_of(alloc: Global) -> Told {
    match session(alloc) {
        Ok(mut session) => acted(&mut session).then(walked(&mut session)),
        Err(told) => told,
    }
}

fn session(alloc: Global) -> Result<Session, Told> {
    match sketch::level(alloc, sketch::CORRIDOR_OF_SIX_PUSHES) {
        Ok(level) => session_of_copy(alloc, &level).map_err(|_| Told::Refused),
        Err(LevelFault::Memory) => Err(Told::Refused),
        Err(_) => Err(Told::Other(0)),
    }
}

fn session_of_copy(alloc: Global, level: &Level) -> Result<Session, Memory> {
    let copy = level.copy(alloc)?;
    Session::new(alloc, &copy)
}

/// Does the acts, one after another.
fn acted(session: &mut Session) -> Told {
    let mut told = Told::Same;
    let mut before = AT_START;
    for (place, row) in ACTS.iter().enumerate() {
        let (act, answer, after) = *row;
        told = told.then(acts(session, act, before, answer, after, place));
        before = after;
    }
    told
}

/// Does an act, and does it again if memory is refused to it. That may happen only to a letter, and
/// only if none is undone.
fn acts(
    session: &mut Session,
    act: Act,
    before: Shown,
    told: Result<bool, PlayFault>,
    after: Shown,
    place: usize,
) -> Told {
    match answer(session, act) {
        Err(PlayFault::Memory) => {
            let stayed = shows(session, before) && !session.redo();
            let again = answer(session, act);
            Told::Refused.checked(stayed && again == told && shows(session, after), place)
        }
        first => Told::Same.checked(first == told && shows(session, after), place),
    }
}

fn shows(session: &Session, shown: Shown) -> bool {
    session.dirs() == shown.letters
        && session.pushes() == shown.pushes
        && session.moves() == shown.letters.len() as u64
        && !session.solved()
        && has_row(session, shown.row)
}

fn has_row(session: &Session, row: &str) -> bool {
    for (symbol, col) in row.bytes().zip(0..128) {
        if session.cell(Spot { row: 2, col }) != cell_of(symbol) {
            return false;
        }
    }
    true
}

/// Plays the walk, undoes it, and plays it again.
fn walked(session: &mut Session) -> Told {
    let mut told = Told::Same;
    for place in 0..WALK {
        told = told.then(walks(session, place));
    }
    told.then(Told::Same.checked(is_taken_back(session) && is_played_again(session), WALK))
}

/// Plays the letter of the walk at a place, and plays it again if memory is refused to it.
fn walks(session: &mut Session, place: usize) -> Told
    requires { place < 100 }
{
    let dir = letter(place);
    match session.step(dir) {
        Err(PlayFault::Memory) => {
            let stayed = has_walked(session, place) && !session.redo();
            let again = session.step(dir);
            let stepped = again == Ok(false) && has_walked(session, place + 1);
            Told::Refused.checked(stayed && stepped, place)
        }
        first => Told::Same.checked(first == Ok(false) && has_walked(session, place + 1), place),
    }
}

/// Returns the letter of the walk at a place.
fn letter(place: usize) -> Dir {
    if place % 2 == 0 {
        Dir::Left
    } else {
        Dir::Right
    }
}

/// Returns whether a session shows the walk after so many letters.
fn has_walked(session: &Session, count: usize) -> bool {
    let row = if count % 2 == 0 {
        "#.@$   #"
    } else {
        "#+ $   #"
    };
    are_of_walk(session.dirs(), count)
        && session.pushes() == 0
        && session.moves() == count as u64
        && !session.solved()
        && has_row(session, row)
}

/// Returns whether these are the first `count` letters of the walk.
fn are_of_walk(letters: &[Dir], count: usize) -> bool {
    for (place, dir) in letters.iter().enumerate() {
        if *dir != letter(place) {
            return false;
        }
    }
    letters.len() == count
}

/// Undoes the letters of the walk one by one. Returns whether these are all.
fn is_taken_back(session: &mut Session) -> bool {
    for place in 0..WALK {
        if !session.undo() || !has_walked(session, WALK - 1 - place) {
            return false;
        }
    }
    !session.undo()
}

/// Plays the letters of the walk again one by one. Returns whether these are all.
fn is_played_again(session: &mut Session) -> bool {
    for place in 0..WALK {
        if !session.redo() || !has_walked(session, place + 1) {
            return false;
        }
    }
    !session.redo()
}
