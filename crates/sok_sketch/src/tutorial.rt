//! The session of the tutorial: what is typed, and what is printed. The tests play it, and the
//! program `sok_tutorial` compares it with the page.

/// A command line, what it writes to the output, and to the error stream, and its status.
pub type Row = (&'static str, &'static str, &'static str, u8);

/// The files that are typed first, with their texts.
pub const FILES: [(&str, &str); 2] = [("small.xsb", LEVELS), ("small.lurd", LETTERS)];

/// A level that takes two pushes, and one without a solution.
const LEVELS: &str = "\
; Around the box
######
#    #
# $@.#
######

; Stuck at the wall
#####
#@.$#
#####
";

/// A solution of the first, and letters that do not solve the second.
const LETTERS: &str = "\
1 ulldRR
2 r
";

/// The commands that follow, in order.
pub const SESSION: [Row; 22] = [
    (
        "sok list small.xsb",
        "1 4 6 1 1 Around the box\n2 3 5 1 1 Stuck at the wall\n",
        "",
        0,
    ),
    ("sok replay small.xsb 1 ulldRR", "solved 2 6\n", "", 0),
    ("sok replay small.xsb 1 uu", "", "fault 12 Blocked 1\n", 3),
    (
        "sok draw small.xsb 1 ulld",
        "######\n#    #\n#@$ .#\n######\n",
        "",
        0,
    ),
    (
        "sok solve small.xsb 1 --cert first.cert",
        "solved 2 6\nulldRR\n",
        "",
        0,
    ),
    (
        "sok solve small.xsb 2 --cert second.cert",
        "unsolvable\n",
        "",
        0,
    ),
    (
        "sok check small.xsb 1 first.cert",
        "accepted at least 2 pushes\n",
        "",
        0,
    ),
    (
        "sok check small.xsb 2 second.cert",
        "accepted unsolvable\n",
        "",
        0,
    ),
    (
        "sok check small.xsb 1 second.cert",
        "refused 23 Start\n",
        "",
        1,
    ),
    (
        "sok add small.db small.xsb",
        "1 id 1\n2 id 2\n",
        "2 new\n",
        0,
    ),
    (
        "sok offer small.db 1 rlulldRurrdLulldRR",
        "stored 4 18\n",
        "",
        0,
    ),
    ("sok offer small.db 1 ulldRR", "stored 2 6\n", "", 0),
    (
        "sok offers small.db small.lurd",
        "1 kept 2 6\n2 fault 13 NotSolved\n",
        "1 kept, 1 with a fault\n",
        3,
    ),
    (
        "sok prove small.db 1 first.cert",
        "proved optimal 2\n",
        "",
        0,
    ),
    (
        "sok prove small.db 2 second.cert",
        "proved unsolvable\n",
        "",
        0,
    ),
    (
        "sok show small.db 1",
        "######\n#    #\n# $@.#\n######\ntitle Around the box\nbest 2 6 ulldRR\nverdict optimal\n",
        "",
        0,
    ),
    (
        "sok show small.db",
        "1 4 6 1 2 6 optimal Around the box\n2 3 5 1 - - unsolvable Stuck at the wall\n",
        "",
        0,
    ),
    (
        "sok export small.db",
        "; Around the box\n######\n#    #\n# $@.#\n######\n\n; Stuck at the wall\n#####\n#@.$#\n#####\n\n",
        "",
        0,
    ),
    ("sok add all.db small.xsb", "1 id 1\n2 id 2\n", "2 new\n", 0),
    (
        "sok settle all.db --certs .",
        "1 optimal 2 6\n2 unsolvable\n",
        "1 optimal, 1 unsolvable\n",
        0,
    ),
    (
        "sok check small.xsb 2 2.cert",
        "accepted unsolvable\n",
        "",
        0,
    ),
    (
        "sok export all.db --solutions",
        "; Around the box\n######\n#    #\n# $@.#\n######\nSolution: ulldRR\nPushes: 2 optimal\n\n; Stuck at the wall\n#####\n#@.$#\n#####\nUnsolvable\n\n",
        "",
        0,
    ),
];
