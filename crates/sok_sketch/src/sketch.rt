//! Boards, and the level of a board.

ghost use Rattle.std.specs.Prelude.{◌≡◌, ◌⊎◌, Err};
ghost use Rattle.sok_rules.specs.declared.fault.LevelFault.TheVariants as fault;
ghost use Rattle.sok_sketch.specs.Sketches.{is_drawn, level_of};

use sok_rules::fault::LevelFault;
use sok_rules::level::Level;
use sok_text::collection::Collection;
use sok_text::xsb::cell_of;
use std::alloc::Global;

/// One push to the right. Its squares are 0, 1 and 2, and the goal is 2.
pub const ONE_PUSH: &str = "\
#####
#@$.#
#####
";

/// Solved as it stands.
pub const SOLVED: &str = "\
#####
#@ *#
#####
";

/// The box cannot be pushed back to the goal.
pub const BOX_BEYOND_THE_GOAL: &str = "\
#####
#@.$#
#####
";

/// Each box blocks the other.
pub const TWO_IN_A_ROW: &str = "\
#######
#@$$..#
#######
";

/// The player walks around the box, and pushes it twice. Squares 0 to 3 are the first row, 4 to 7
/// the second; the goal is 7.
pub const ROOM_OF_TWO_ROWS: &str = "\
######
#    #
# $@.#
######
";

/// The player has to turn in the room at the end. Squares 0 to 2 are the room's first row, 3 to 8
/// the corridor with the room's second row, and 9 to 11 the room's last row; the goal is 3.
pub const CORRIDOR_OF_SIX_PUSHES: &str = "\
########
####   #
#.@$   #
####   #
########
";

/// The same with the box one square further, where it separates the corridor from the room.
pub const CORRIDOR_WITH_THE_BOX_ON_6: &str = "\
########
####   #
#.@ $  #
####   #
########
";

/// The box on square 10 keeps the player out of the corridor of the box on 12. The boxes are on 7,
/// 10 and 12, the goals on 13, 14 and 16.
pub const PAIR_THAT_IS_LOST: &str = "\
#######
#     ######
#  $ @$ $..#
# .   ######
#######
";

/// The box on square 6 is pushed to the left, and then reaches no goal but 14. So with boxes on 14
/// and 15 the three are lost, though no two of them are. The goals are 14, 15 and 16.
pub const THREE_THAT_ARE_LOST: &str = "\
#######
#     #
## $@##
#     #
# **. #
#######
";

/// Both boxes are at the upper wall, which has only one goal.
pub const TWO_BOXES_FOR_ONE_GOAL: &str = "\
#######
# $ $.#
#  .  #
#  @  #
#######
";

/// The boxes are on squares 8 and 10, the goals 6, 9 and 11.
pub const TWO_BOXES_AND_THREE_GOALS: &str = "\
########
#@     #
#. $.$.#
########
";

/// The goal that is nearest to the first box is the only one that is near to the second.
pub const NEAREST_GOAL_NEEDED_BY_ANOTHER: &str = "\
##############
#@  . $.  $  #
##############
";

/// A box that can be pushed in each direction.
pub const BOX_IN_THE_OPEN: &str = "\
#####
#   #
# $ #
#@ .#
#####
";

/// A box in a doorway shuts the player out from the room behind it, and another one stands in the open.
/// Squares 0 to 4 are the first row, 5 to 10 the second, 11 to 15 the third, and 16 to 18 the last;
/// the boxes are 8 and 12.
pub const BOX_IN_THE_DOORWAY: &str = "\
########
#   #  #
#@  $ .#
# $ #  #
#  .####
########
";

/// A box on a goal beside one off a goal.
pub const ONE_OF_TWO_ON_A_GOAL: &str = "\
#######
#@*$ .#
#######
";

/// Two boxes on goals.
pub const TWO_ON_GOALS: &str = "\
#####
#@**#
#####
";

/// Two boxes that are stuck, and one that is not.
pub const TWO_OF_THREE_STUCK: &str = "\
##########
#@$$. $..#
##########
";

/// The first push solves it, and a second one takes the box from the goal.
pub const ROOM_BEYOND_THE_GOAL: &str = "\
######
#@$. #
######
";

/// A room of two rows that is wider than the path of the box.
pub const WIDE_ROOM_OF_TWO_ROWS: &str = "\
########
#      #
# $@.  #
########
";

/// One push to the left.
pub const ONE_PUSH_LEFT: &str = "\
#####
#.$@#
#####
";

/// One push up.
pub const ONE_PUSH_UP: &str = "\
###
#.#
#$#
#@#
###
";

/// One push down.
pub const ONE_PUSH_DOWN: &str = "\
###
#@#
#$#
#.#
###
";

/// The box stands at a wall.
pub const BOX_AT_A_WALL: &str = "\
#####
#@$#
#####
";

/// Nothing is above the player.
pub const NO_ROW_ABOVE: &str = "\
#@$.#
#####
";

/// The goal's neighbour on the right is in no row.
pub const OPEN_AT_THE_SIDE: &str = "\
#####
#@$.
#####
";

/// A box on a goal outside the area.
pub const DECORATED: &str = "\
#######
#@$.#*#
#######
";

/// A box off a goal outside the area.
pub const STRAY_BOX: &str = "\
#######
#@$.#$#
#######
";

/// The only box is outside the area, on a goal.
pub const NO_BOX_INSIDE: &str = "\
#####
#@#*#
#####
";

/// No goal for the box.
pub const NO_GOAL: &str = "\
#####
#@$ #
#####
";

pub const NO_PLAYER: &str = "\
####
# $.#
####
";

pub const TWO_PLAYERS: &str = "\
######
#@$@.#
######
";

/// One of the players stands on a goal.
pub const TWO_PLAYERS_ONE_ON_A_GOAL: &str = "\
######
#@$+.#
######
";

pub const NO_BOX: &str = "\
#####
#@ .#
#####
";

pub const NEITHER_PLAYER_NOR_BOX: &str = "\
####
#  .#
####
";

/// Pillars, and ways around them.
pub const PILLARS: &str = "\
########
#@     #
# # # ##
# $  $ #
# # ## #
#  .  .#
########
";

/// Three boxes in a wide room.
pub const THREE_BOXES_IN_THE_OPEN: &str = "\
##########
#@       #
#  $ $   #
#   $    #
#  ...   #
#        #
##########
";

/// Returns the level of a board. Each byte has to stand for a cell or end a line; otherwise the
/// fault is `NoSuchLevel`.
pub fn level(alloc: Global, board: &str) -> Result<Level, LevelFault>
    ensures { (result ≡ Err fault.Memory) ⊎ (result ≡ level_of board.now) }
{
    let text = board.as_bytes();
    if !is_drawn(text) {
        return Err(LevelFault::NoSuchLevel);
    }
    match Collection::read(alloc, text) {
        Ok(collection) => collection.level(alloc, 1),
        Err(_) => Err(LevelFault::Memory),
    }
}

/// Returns whether each byte stands for a cell or ends a line.
fn is_drawn(board: &[u8]) -> bool
    ensures { result ≡ is_drawn board.now }
{
    board
        .iter()
        .all(|byte| *byte == b'\n' || cell_of(*byte).is_some())
}
