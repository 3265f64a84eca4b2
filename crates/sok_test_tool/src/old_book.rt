//! A book that an earlier program wrote. That program read no run lengths, and levels of at most 64
//! rows, 64 columns and 1,024 squares. Each record is shown as that program showed it, and so is
//! the whole book.

use crate::rows::first_other;
use sok_sketch::tutorial::Row;
use std::alloc::{AllocError, Global};
use std::fs;
use std::test::Fail;

/// The bytes of its file without long runs of zeros: each part with its place.
const PARTS: [(usize, &[u8]); 11] = [
    (0, b"SQLite format 3\0\x10\0\x02\x02\0@  "),
    (31, b"\x03"),
    (43, b"\x03\0\0\0\x04"),
    (59, b"\x01"),
    (97, b".v\x88\r\0\0\0\x02\x0f\x1e\0\x0fI\x0f\x1e"),
    (
        3870,
        b"\
)\x02\x06\x17=\x17\x01\0indexsqlite_autoindex_level_1level\x03\x814\x01\x07\x17\x17\x17\x01\
\x82Gtablelevellevel\x02CREATE TABLE level (id INTEGER PRIMARY KEY, text TEXT NOT NULL UNIQU\
E, title BLOB, lurd TEXT, pushes INTEGER, moves INTEGER, verdict INTEGER NOT NULL) STRICT\r\
\0\0\0\n\
\x0bm\0\x0c\xfb\x0c\xc6\x0c{\x0bm\x0f\xd7\x0fr\x0e\xb8\x0eJ\r\xbf\r7",
    ),
    (
        7021,
        b"\
\x82\x0b\x04\n\
\0\x83\x13\0\x81\x05\x01\x01\t##############################################################\
##\n\
#@$                                                           .#\n\
################################################################\n\
RRRRRRRRRRRRRRRRRRRRRRRRRRRRRRRRRRRRRRRRRRRRRRRRRRRRRRRRRRRR<<I\x03\x08\0g\x1c!\x01\x01\x08#\
#######\n\
####   #\n\
#.@$   #\n\
####   #\n\
########\n\
CorridorRRurrdLLLL\x06\n\
3\x02\x08\0?.\0\0\0\x01####\n\
#@$#\n\
#  #\n\
# .#\n\
####\n\
Stuck at the wall\x02:\x01\x08\0E(\x19\x01\x01\t######\n\
#    #\n\
# $@.#\n\
######\n\
Around the boxulldRR\x02\x06\x81\x05\n\
\t\0\x81Y8\0\0\0\x08  #########\n\
\x20 #   #  @#\n\
\x20##  .$.# #\n\
\x20#  ##  $ #\n\
##  .$*#$##\n\
#  #$#   #\n\
#  . .# ##\n\
####    #\n\
\x20  ######\n\
GRIGoRusha 4 Track #04\x81\x08\t\t\0\x81[<\0\0\0\x08########\n\
#   #  ##\n\
#   $   #\n\
## ##..$#\n\
\x20#@## . #\n\
\x20# . ##$#\n\
\x20#$ .## ##\n\
\x20#   $   #\n\
\x20##  #   #\n\
\x20 ########\n\
GRIGoRusha 69 Kompas #69l\x08\t\0\x81#<\0\0\0\x08    ####\n\
#####@ #\n\
# $ $$$##\n\
#  .#.  #\n\
## #  # #\n\
\x20# . .  #\n\
\x20#   ####\n\
\x20#####\n\
GRIGoRusha 55 Kubizm #55\x817\x07\t\0\x82U \0\0\0\x08    #####\n\
\x20   #   #\n\
\x20   #$  #\n\
\x20 ###  $##\n\
\x20 #  $ $ #\n\
### # ## #   ######\n\
#   # ## #####  ..#\n\
# $  $          ..#\n\
##### ### #@##  ..#\n\
\x20   #     #########\n\
\x20   #######\n\
XSokoban 1c\x06\t\0\x81\x0f>\0\0\0\x08   #####\n\
####   #\n\
# $  #.##\n\
#   *   #\n\
##.#  $ #\n\
\x20# @ ####\n\
\x20#####\n\
GRIGoRusha 77 Zerkalo #77'\x05\x08\01&\r\x08\x08\x08#####\n\
#@* #\n\
#####\n\
Already there\n\
\0\0\0\n\
\x0c\x93\0\rl\r\xbd\x0eh\x0c\x93\x0f\xc2\x0e\xaf\x0f\xe0\x0c\xff\x0f\x90\x0e\xc6\0\0\0\x01",
    ),
    (8235, b"\x02\0\0\0\x04"),
    (8251, b"\x01"),
    (8289, b".v\x88\r\0\0\0\x01\x0fI\0\x0fI"),
    (
        11411,
        b"\
k\x04\x81Y\x01  #########\n\
\x20 #   #  @#\n\
\x20##  .$.# #\n\
\x20#  ##  $ #\n\
##  .$*#$##\n\
#  #$#   #\n\
#  . .# ##\n\
####    #\n\
\x20  ######\n\
\n\
l\x04\x81[\x01########\n\
#   #  ##\n\
#   $   #\n\
## ##..$#\n\
\x20#@## . #\n\
\x20# . ##$#\n\
\x20#$ .## ##\n\
\x20#   $   #\n\
\x20##  #   #\n\
\x20 ########\n\
\tP\x04\x81#\x01    ####\n\
#####@ #\n\
# $ $$$##\n\
#  .#.  #\n\
## #  # #\n\
\x20# . .  #\n\
\x20#   ####\n\
\x20#####\n\
\x08\x81)\x04\x82U\x01    #####\n\
\x20   #   #\n\
\x20   #$  #\n\
\x20 ###  $##\n\
\x20 #  $ $ #\n\
### # ## #   ######\n\
#   # ## #####  ..#\n\
# $  $          ..#\n\
##### ### #@##  ..#\n\
\x20   #     #########\n\
\x20   #######\n\
\x07F\x04\x81\x0f\x01   #####\n\
####   #\n\
# $  #.##\n\
#   *   #\n\
##.#  $ #\n\
\x20# @ ####\n\
\x20#####\n\
\x06\x16\x031\x01#####\n\
#@* #\n\
#####\n\
\x05\x81H\x04\x83\x13\x01################################################################\n\
#@$                                                           .#\n\
################################################################\n\
\x041\x03g\x01########\n\
####   #\n\
#.@$   #\n\
####   #\n\
########\n\
\x03\x1d\x03?\x01####\n\
#@$#\n\
#  #\n\
# .#\n\
####\n\
\x02\x1f\x03E\t######\n\
#    #\n\
# $@.#\n\
######\n",
    ),
];

/// What the earlier program wrote to `show` for each id, and to `export`.
const WRITTEN: [Row; 11] = [
    (
        "sok show old/book 1",
        "\
######
#    #
# $@.#
######
title Around the box
best 2 6 ulldRR
verdict optimal
",
        "",
        0,
    ),
    (
        "sok show old/book 2",
        "\
####
#@$#
#  #
# .#
####
title Stuck at the wall
best none
verdict unsolvable
",
        "",
        0,
    ),
    (
        "sok show old/book 3",
        "\
########
####   #
#.@$   #
####   #
########
title Corridor
best 6 10 RRurrdLLLL
verdict untested
",
        "",
        0,
    ),
    (
        "sok show old/book 4",
        "\
################################################################
#@$                                                           .#
################################################################
best 60 60 RRRRRRRRRRRRRRRRRRRRRRRRRRRRRRRRRRRRRRRRRRRRRRRRRRRRRRRRRRRR
verdict optimal
",
        "",
        0,
    ),
    (
        "sok show old/book 5",
        "\
#####
#@* #
#####
title Already there
best 0 0 
verdict untested
",
        "",
        0,
    ),
    (
        "sok show old/book 6",
        "   #####
####   #
# $  #.##
#   *   #
##.#  $ #
 # @ ####
 #####
title GRIGoRusha 77 Zerkalo #77
best none
verdict untested
",
        "",
        0,
    ),
    (
        "sok show old/book 7",
        "    #####
    #   #
    #$  #
  ###  $##
  #  $ $ #
### # ## #   ######
#   # ## #####  ..#
# $  $          ..#
##### ### #@##  ..#
    #     #########
    #######
title XSokoban 1
best none
verdict untested
",
        "",
        0,
    ),
    (
        "sok show old/book 8",
        "    ####
#####@ #
# $ $$$##
#  .#.  #
## #  # #
 # . .  #
 #   ####
 #####
title GRIGoRusha 55 Kubizm #55
best none
verdict untested
",
        "",
        0,
    ),
    (
        "sok show old/book 9",
        "\
########
#   #  ##
#   $   #
## ##..$#
 #@## . #
 # . ##$#
 #$ .## ##
 #   $   #
 ##  #   #
  ########
title GRIGoRusha 69 Kompas #69
best none
verdict untested
",
        "",
        0,
    ),
    (
        "sok show old/book 10",
        "  #########
  #   #  @#
 ##  .$.# #
 #  ##  $ #
##  .$*#$##
#  #$#   #
#  . .# ##
####    #
   ######
title GRIGoRusha 4 Track #04
best none
verdict untested
",
        "",
        0,
    ),
    (
        "sok export old/book",
        "\
; Around the box
######
#    #
# $@.#
######

; Stuck at the wall
####
#@$#
#  #
# .#
####

; Corridor
########
####   #
#.@$   #
####   #
########

################################################################
#@$                                                           .#
################################################################

; Already there
#####
#@* #
#####

; GRIGoRusha 77 Zerkalo #77
   #####
####   #
# $  #.##
#   *   #
##.#  $ #
 # @ ####
 #####

; XSokoban 1
    #####
    #   #
    #$  #
  ###  $##
  #  $ $ #
### # ## #   ######
#   # ## #####  ..#
# $  $          ..#
##### ### #@##  ..#
    #     #########
    #######

; GRIGoRusha 55 Kubizm #55
    ####
#####@ #
# $ $$$##
#  .#.  #
## #  # #
 # . .  #
 #   ####
 #####

; GRIGoRusha 69 Kompas #69
########
#   #  ##
#   $   #
## ##..$#
 #@## . #
 # . ##$#
 #$ .## ##
 #   $   #
 ##  #   #
  ########

; GRIGoRusha 4 Track #04
  #########
  #   #  @#
 ##  .$.# #
 #  ##  $ #
##  .$*#$##
#  #$#   #
#  . .# ##
####    #
   ######

",
        "",
        0,
    ),
];

#[test]
fn a_book_of_an_earlier_program(rt: HostRuntime) -> Result<(), Fail> {
    let _ = fs::remove_dir_all(&rt, "old");
    fs::create_dir(&rt, "old")?;
    fs::write(&rt, "old/book", file(rt.alloc())?)?;
    let other = first_other(&rt, &WRITTEN)?;
    let _ = fs::remove_dir_all(&rt, "old");
    assert_eq!(rt; other, None);
    Ok(())
}

/// Returns the bytes of the file.
fn file(alloc: Global) -> Result<Vec<u8>, AllocError> {
    let mut bytes = Vec::new(alloc);
    for &(place, part) in &PARTS {
        bytes.resize(place, 0)?;
        bytes.extend_from_slice(part)?;
    }
    Ok(bytes)
}
