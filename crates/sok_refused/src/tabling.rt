//! A table of states, with so many entries that it asks for memory again and again.

ghost use Rattle.std.specs.Prelude.{◌<◌, ◌≤◌, All, IfOk, OnOk};
ghost use Rattle.sok_board.specs.Limits.{square_limit};

use crate::telling::Told;
use sok_board::area::Sq;
use sok_board::box_set::BoxSet;
use sok_rules::fault::Memory;
use sok_state::key::Key;
use sok_state::table::Table;
use std::alloc::Global;

/// How many states are entered.
const COUNT: usize = 80;

/// Enters the states into a table for so many squares.
pub(crate) fn told_of(alloc: Global, squares: usize) -> Told
    requires many { 64 ≤ squares }
    requires few { squares ≤ square_limit }
{
    let mut table = Table::new(alloc, squares);
    match all_told(alloc, &mut table) {
        Ok(told) => told,
        Err(_) => Told::Refused,
    }
}

/// Enters all states, one after another.
fn all_told(alloc: Global, table: &mut Table) -> Result<Told, Memory>
    requires { 64 ≤ table.old.room }
{
    let mut told = Told::Same;
    for place in 0..COUNT {
        told = told.then(one_told(alloc, table, place)?);
        let stays = stays(alloc, table, place)?;
        told = told.checked(stays, place);
    }
    Ok(told)
}

/// Enters the state at a place, and enters it again if memory is refused to it.
fn one_told(alloc: Global, table: &mut Table, place: usize) -> Result<Told, Memory>
    requires wide { 64 ≤ table.old.room }
    requires few { place < 80 }
    ensures { OnOk result (64 ≤ table.new.room) }
{
    let first = key(alloc, 0)?;
    let key = key(alloc, place)?;
    let mut told = Told::Same;
    let mut answer = enter(table, &first, &key, place);
    if answer.is_err() {
        let stayed = has_first(alloc, table, place)? && lacks(table, &key);
        told = Told::Refused.checked(stayed, place);
        answer = enter(table, &first, &key, place);
    }
    let entered = answer == Ok((place, true)) && has_first(alloc, table, place + 1)?;
    Ok(told.checked(entered, place))
}

/// Returns the state at a place: two for each box but the first, with the player on either side.
fn key(alloc: Global, place: usize) -> Result<Key, Memory>
    requires few { place < 80 }
    ensures { IfOk result (λ key. All (λ square. square < 64) key.boxes) }
{
    let boxes = BoxSet::of(alloc, &[square(place)])?;
    let least = (place % 2) as Sq;
    Ok(Key { boxes, least })
}

/// Returns the square of the box in the state at a place.
fn square(place: usize) -> Sq
    requires { place < 80 }
    ensures { result < 64 }
{
    (place / 2 + place % 2) as Sq
}

/// Enters the state at a place: by its key, or as the state after a push from the first one.
fn enter(table: &mut Table, first: &Key, key: &Key, place: usize) -> Result<(usize, bool), Memory>
    requires wide { 64 ≤ table.old.room }
    requires first { All (λ square. square < 64) first.now.boxes }
    requires exist { All (λ square. square < 64) key.now.boxes }
    requires few { place < 80 }
    ensures { 64 ≤ table.new.room }
{
    let depth = place as u32;
    match table.get(first) {
        Some(at) if place % 2 == 1 && at < table.len() && first.boxes.has(0) => {
            table.insert_next(at, 0, square(place), 1, depth)
        }
        _ => table.insert(key, depth),
    }
}

/// Returns whether the first state keeps its place and its depth if it is entered again, which
/// needs no memory.
fn stays(alloc: Global, table: &mut Table, place: usize) -> Result<bool, Memory>
    requires wide { 64 ≤ table.old.room }
    requires few { place < 80 }
    ensures { OnOk result (64 ≤ table.new.room) }
{
    let first = key(alloc, 0)?;
    let answer = table.insert(&first, 1_000);
    Ok(answer == Ok((0, false)) && has_first(alloc, table, place + 1)?)
}

/// Returns whether a table has the first `count` states, and no others.
fn has_first(alloc: Global, table: &Table, count: usize) -> Result<bool, Memory>
    requires wide { 64 ≤ table.now.room }
    requires few { count ≤ 80 }
{
    for place in 0..count {
        let key = key(alloc, place)?;
        if !has(table, &key, place) {
            return Ok(false);
        }
    }
    Ok(table.len() == count)
}

/// Returns whether a table has a key at a place, with the place as its depth.
fn has(table: &Table, key: &Key, place: usize) -> bool
    requires wide { 64 ≤ table.now.room }
    requires exist { All (λ square. square < 64) key.now.boxes }
{
    let Some(at) = table.get(key) else {
        return false;
    };
    at == place && at < table.len() && table.depth(at) as usize == place
}

/// Returns whether a table does not have a key.
fn lacks(table: &Table, key: &Key) -> bool
    requires wide { 64 ≤ table.now.room }
    requires exist { All (λ square. square < 64) key.now.boxes }
{
    table.get(key).is_none()
}
