//! Large rooms, in which one row is repeated.

ghost use Rattle.std.specs.Prelude.{◌≡◌, ◌++◌, IfOk, string_bytes};
ghost use Rattle.std.specs.List.{repeat};

use std::alloc::{AllocError, Global};

/// The rows of a board, of which one is repeated.
#[derive(Clone, Copy)]
pub struct Room {
    pub top: &'static str,
    /// The row that is repeated, and how often.
    pub row: &'static str,
    pub times: usize,
    pub bottom: &'static str,
}

impl Room {
    /// Returns the text of the board.
    pub fn text(&self, alloc: Global) -> Result<String, AllocError>
        ensures { IfOk result (λ text. string_bytes text
            ≡ self.now.top.now ++ (repeat self.now.times self.now.row.now ++ self.now.bottom.now)) }
    {
        let rows = self.row.repeat(alloc, self.times)?;
        let mut text = String::from_str(alloc, self.top)?;
        text.push_str(rows.as_str())?;
        text.push_str(self.bottom)?;
        Ok(text)
    }
}

/// 64 rows of 64 squares, as many as a board may have.
pub const ROOM_OF_4096: Room = Room {
    top: "\
##################################################################
#@$.                                                             #
",
    row: "#                                                                #\n",
    times: 63,
    bottom: "##################################################################\n",
};

/// The same, with one square more below the first.
pub const ROOM_OF_4097: Room = Room {
    bottom: "# ################################################################\n###\n",
    ..ROOM_OF_4096
};

/// A corridor of 500 squares around a block, in 128 rows and 128 columns. The player stands to the
/// right of the goal and has to walk once around to reach the box.
pub const CORRIDOR_AROUND: Room = Room {
    top: "\
################################################################################################################################
#                                                             $   .  @                                                         #
",
    row: "# ############################################################################################################################ #\n",
    times: 124,
    bottom: "\
#                                                                                                                              #
################################################################################################################################
",
};

/// 32 rows of 32 squares.
pub const ROOM_OF_1024: Room = Room {
    top: "\
##################################
#@$.                             #
",
    row: "#                                #\n",
    times: 31,
    bottom: "##################################\n",
};

/// One box and 128 more: one box more than a board may have.
pub const ROOM_OF_129_BOXES: Room = Room {
    top: "\
##################################
#@$.                             #
",
    row: "#$$$$$$$$$$$$$$$$$$$$$$$$$$$$$$$$#\n",
    times: 4,
    bottom: "##################################\n",
};

/// 32 rows of 32 squares. The rows 1 to 4, counted from 0, are goals: squares 32 to 159.
pub const ROOM_OF_128_GOALS: Room = Room {
    top: "\
##################################
#@$                              #
#................................#
#................................#
#................................#
#................................#
",
    row: "#                                #\n",
    times: 27,
    bottom: "##################################\n",
};

/// 128 boxes on the squares 32 to 159, and as many goals below them.
pub const ROOM_OF_128_BOXES: Room = Room {
    top: "\
##################################
#@                               #
#$$$$$$$$$$$$$$$$$$$$$$$$$$$$$$$$#
#$$$$$$$$$$$$$$$$$$$$$$$$$$$$$$$$#
#$$$$$$$$$$$$$$$$$$$$$$$$$$$$$$$$#
#$$$$$$$$$$$$$$$$$$$$$$$$$$$$$$$$#
",
    row: "#................................#\n",
    times: 4,
    bottom: "##################################\n",
};

/// 17 boxes on the squares 32 to 48, and goals in the row below them.
pub const ROOM_OF_17_BOXES: Room = Room {
    top: "\
##################################
#@                               #
#$$$$$$$$$$$$$$$$$               #
",
    row: "#................................#\n",
    times: 1,
    bottom: "##################################\n",
};

/// Four rows of goals above four rows of boxes.
pub const ROOM_OF_128_BOXES_BELOW_GOALS: Room = Room {
    top: "\
##################################
#@                               #
#................................#
#................................#
#................................#
#................................#
#$$$$$$$$$$$$$$$$$$$$$$$$$$$$$$$$#
#$$$$$$$$$$$$$$$$$$$$$$$$$$$$$$$$#
#$$$$$$$$$$$$$$$$$$$$$$$$$$$$$$$$#
#$$$$$$$$$$$$$$$$$$$$$$$$$$$$$$$$#
",
    row: "#                                #\n",
    times: 23,
    bottom: "##################################\n",
};
