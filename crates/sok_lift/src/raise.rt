//! What the lifts of a state's pairs of boxes show.

ghost use Rattle.std.specs.Prelude.{◌≡◌, ◌<◌, ◌≤◌, ◌↔◌, IfOk, IfSome, IsTrue, MatchOption, length};
ghost use Rattle.sok_board.specs.Limits.{box_limit};
ghost use Rattle.sok_lift.specs.Lifts.{HasLifts};
ghost use Rattle.sok_lift.specs.Numbers.{lift_in};
ghost use Rattle.sok_lift.specs.Pairs.{HasLostPair, IsMost, IsPartner};

use crate::lifts::{LOST, Lifts};
use sok_board::area::Sq;
use sok_board::box_set::BoxSet;
use sok_rules::fault::Memory;

/// Adds up the lifts of pairs that share no box. Each box in turn is paired with the box before it,
/// among those without a partner, with which it has the greatest lift. `free` is a buffer. Fails only
/// if memory is refused.
pub fn raise(lifts: &Lifts, player: Sq, boxes: &BoxSet, free: &mut Vec<bool>) -> Result<u32, Memory>
    ensures { IfOk result (HasLifts (lift_in lifts.now) player boxes.now) }
{
    let boxes = boxes.list();
    free.resize(boxes.len(), true)?;
    Ok(add_up(lifts, player, boxes, free))
}

/// Adds them up. `free` has room for each box.
fn add_up(lifts: &Lifts, player: Sq, boxes: &[Sq], free: &mut [bool]) -> u32
    requires room { length free.old ≡ length boxes.now }
    requires few { length boxes.now ≤ box_limit }
    ensures { HasLifts (lift_in lifts.now) player boxes.now result }
{
    free.fill(true);
    let mut total = 0;
    for one in 0..boxes.len() {
        if let Some((other, lift)) = partner(lifts, player, boxes, free, one) {
            free[one] = false;
            free[other] = false;
            total += u32::from(lift);
        }
    }
    total
}

/// Returns the free box before `one` with which it has the greatest lift, and this lift, if it is
/// above 0. Boxes are given by their indices.
fn partner(
    lifts: &Lifts,
    player: Sq,
    boxes: &[Sq],
    free: &[bool],
    one: usize,
) -> Option<(usize, u8)>
    requires room { length free.now ≡ length boxes.now }
    requires within { one < length boxes.now }
    ensures some { IfSome result (λ found.
        IsPartner lifts.now player boxes.now free.now one found.0 found.1) }
    ensures most { MatchOption result (IsMost lifts.now player boxes.now free.now one 0 one)
        (λ found. IsMost lifts.now player boxes.now free.now one found.1 one) }
{
    let mut most = 0;
    let mut best = None;
    for other in 0..one {
        if free[other] {
            let lift = lifts.of(player, boxes[one], boxes[other]);
            if most < lift {
                most = lift;
                best = Some((other, lift));
            }
        }
    }
    best
}

/// Returns whether a push to `to` leaves two boxes that can't be solved: the pushed one and one of
/// these but that at `from`.
pub fn is_lost(lifts: &Lifts, player: Sq, boxes: &BoxSet, from: Sq, to: Sq) -> bool
    ensures { IsTrue result ↔ HasLostPair lifts.now player boxes.now from to }
{
    for other in boxes.list() {
        if *other != from && lifts.of(player, to, *other) == LOST {
            return true;
        }
    }
    false
}
