//! How a new state stands.

ghost use Rattle.std.specs.Prelude.{IfOk, OnOk};
ghost use Rattle.sok_alone.specs.Losses.{KeepsLosses, losses_of};
ghost use Rattle.sok_region.specs.Regions.{IsPlaced};
ghost use Rattle.sok_search.specs.Steps.{IsPriced};

use crate::note::Standing;
use sok_alone::losses::Losses;
use sok_bar::frozen::find_jam;
use sok_distance::setting::Setting;
use sok_price::assign::{Match, assign};
use sok_rules::fault::Memory;
use sok_state::key::Key;
use std::alloc::Global;

/// Judges the start: dead by a jam or a crowd, lost by two of its boxes, or open with a lower bound. Losses
/// that are found are kept.
pub(crate) fn judge(
    alloc: Global,
    setting: &Setting<'_>,
    losses: &mut Losses,
    key: &Key,
) -> Result<Standing, Memory>
    requires placed { IsPlaced setting.now.board.now key.now.boxes key.now.least }
    requires losses { KeepsLosses setting.now.board.now losses.old }
    ensures losses { OnOk result (KeepsLosses setting.now.board.now losses.new) }
    ensures judged { IfOk result
        (IsPriced setting.now.board.now (losses_of losses.new) key.now.least key.now.boxes) }
{
    if let Some(_jam) = find_jam(alloc, setting, &key.boxes)? {
        return Ok(Standing::Dead);
    }
    let total = match assign(alloc, setting.distances, &key.boxes)? {
        Match::Prices { total, .. } => total,
        Match::Crowd { .. } => return Ok(Standing::Dead),
    };
    match losses.loss_among(alloc, setting, &key.boxes, key.least)? {
        Some(place) => Ok(Standing::Lost(place)),
        None => Ok(Standing::Open(total)),
    }
}
