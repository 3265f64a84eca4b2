//! Certificates with patterns, judged.

use crate::verdicts::judge_text;
use sok_cert::claim::Claim;
use sok_cert::fault::CertFault;
use sok_sketch::{sets, sketch};
use std::alloc::Global;
use std::process::Abort;
use std::test::Fail;

/// The text of a certificate, and the claim or fault that it has.
type Case = (&'static str, Result<Claim, CertFault>);

const BAD_REASON: Result<Claim, CertFault> = Err(CertFault::BadReason(0));

/// The two boxes in front of the corridor and in it are lost, and so is the level.
const PAIR_THAT_IS_LOST: [Case; 22] = [
    (
        "sokoban-certificate 2\nunsolvable\np 0 9 3 7 10 12 2 1 2 2\nx 0 9 2 10 12\n\
         f 1 10 2 11 12 2 0 1\nend\n",
        Ok(Claim::Unsolvable),
    ),
    (
        "sokoban-certificate 2\r\npushes 9\r\np 0 9 3 7 10 12 2 1 2 2\r\nx 0 9 2 10 12\r\n\
         f 1 10 2 11 12 2 0 1\r\nend\r\n",
        Ok(Claim::Pushes(9)),
    ),
    // the depths inside a pattern are its own
    (
        "sokoban-certificate 2\nunsolvable\np 0 9 3 7 10 12 2 1 2 2\nf 0 10 2 11 12 2 0 1\n\
         x 0 9 2 10 12\nend\n",
        Ok(Claim::Unsolvable),
    ),
    // other members
    (
        "sokoban-certificate 2\nunsolvable\np 0 9 3 7 10 12 2 0 2 2\nx 0 9 2 10 12\n\
         f 1 10 2 11 12 2 0 1\nend\n",
        BAD_REASON,
    ),
    (
        "sokoban-certificate 2\nunsolvable\np 0 9 3 7 10 12 2 2 1 2\nx 0 9 2 10 12\n\
         f 1 10 2 11 12 2 0 1\nend\n",
        BAD_REASON,
    ),
    (
        "sokoban-certificate 2\nunsolvable\np 0 9 3 7 10 12 3 1 2 2 2\nx 0 9 2 10 12\n\
         f 1 10 2 11 12 2 0 1\nend\n",
        BAD_REASON,
    ),
    (
        "sokoban-certificate 2\nunsolvable\np 0 9 3 7 10 12 2 1 3 2\nx 0 9 2 10 12\n\
         f 1 10 2 11 12 2 0 1\nend\n",
        BAD_REASON,
    ),
    // without the state that the one push leads to
    (
        "sokoban-certificate 2\nunsolvable\np 0 9 3 7 10 12 2 1 2 1\nx 0 9 2 10 12\nend\n",
        BAD_REASON,
    ),
    // without the start, or with one that is deeper
    (
        "sokoban-certificate 2\nunsolvable\np 0 9 3 7 10 12 2 1 2 1\nf 1 10 2 11 12 2 0 1\nend\n",
        BAD_REASON,
    ),
    (
        "sokoban-certificate 2\nunsolvable\np 0 9 3 7 10 12 2 1 2 2\nx 1 9 2 10 12\n\
         f 1 10 2 11 12 2 0 1\nend\n",
        BAD_REASON,
    ),
    (
        "sokoban-certificate 2\nunsolvable\np 0 9 3 7 10 12 2 1 2 0\nend\n",
        BAD_REASON,
    ),
    // with all boxes inside, and with the start twice
    (
        "sokoban-certificate 2\nunsolvable\np 0 9 3 7 10 12 2 1 2 2\nx 0 9 3 7 10 12\n\
         f 1 10 2 11 12 2 0 1\nend\n",
        BAD_REASON,
    ),
    (
        "sokoban-certificate 2\nunsolvable\np 0 9 3 7 10 12 2 1 2 3\nx 0 9 2 10 12\n\
         x 0 0 2 10 12\nf 1 10 2 11 12 2 0 1\nend\n",
        BAD_REASON,
    ),
    // the same lines inside once more
    (
        "sokoban-certificate 2\nunsolvable\np 0 9 3 7 10 12 2 1 2 2\nx 0 9 2 10 12\n\
         f 1 10 2 11 12 2 0 1\np 0 9 3 7 10 12 2 1 2 2\nx 0 9 2 10 12\n\
         f 1 10 2 11 12 2 0 1\nend\n",
        Err(CertFault::Duplicate(1)),
    ),
    (
        "sokoban-certificate 2\nunsolvable\np 0 9 3 7 10 12 2 1 2 2\nx 0 9 2 10 12\n\
         f 1 10 2 11 12 2 0 1\np 0 9 3 7 10 12 2 1 2 2\nx 0 9 2 10 12\n\
         f 1 10 2 11 12 2 0 1\nx\n",
        Err(CertFault::Line(9)),
    ),
    (
        "sokoban-certificate 2\nunsolvable\np 0 9 3 7 10 12 2 1 2 2\nx 0 9 2 10 12\n\
         f 1 10 2 11 12 2 0 1\np 0 9 3 7 10 12 2 1 2 3\nx 0 9 2 10 12\n\
         f 1 10 2 11 12 2 0 1\nend\n",
        Err(CertFault::Line(9)),
    ),
    // the text's faults
    (
        "sokoban-certificate 1\nunsolvable\np 0 9 3 7 10 12 2 1 2 2\nx 0 9 2 10 12\n\
         f 1 10 2 11 12 2 0 1\nend\n",
        Err(CertFault::Line(3)),
    ),
    (
        "sokoban-certificate 2\nunsolvable\np 0 9 3 7 10 12 2 1 2 3\nx 0 9 2 10 12\n\
         f 1 10 2 11 12 2 0 1\nend\n",
        Err(CertFault::Line(6)),
    ),
    (
        "sokoban-certificate 2\nunsolvable\np 0 9 3 7 10 12 2 1 2 2\ns 0 9 2 10 12\n\
         f 1 10 2 11 12 2 0 1\nend\n",
        Err(CertFault::Line(4)),
    ),
    (
        "sokoban-certificate 2\nunsolvable\np 0 9 3 7 10 12 2 1 2 2\nx 0 9 2 10 12\n",
        Err(CertFault::Truncated),
    ),
    (
        "sokoban-certificate 2\nunsolvable\np 0 9 3 7 10 12 2 1 2 2\nx 0 9 2 10 12\nend",
        Err(CertFault::Truncated),
    ),
    (
        "sokoban-certificate 3\nunsolvable\nend\n",
        Err(CertFault::Header),
    ),
];

/// The box stands on its goal: alone it is solved.
const SOLVED: [Case; 2] = [
    (
        "sokoban-certificate 2\nunsolvable\np 0 0 1 2 1 0 1\nx 0 0 1 2\nend\n",
        BAD_REASON,
    ),
    // no pattern is needed in version 2
    (
        "sokoban-certificate 2\npushes 0\ns 0 0 1 2\nend\n",
        Ok(Claim::Pushes(0)),
    ),
];

/// Judges each case of a board.
fn judge(rt: &impl Abort, alloc: Global, rows: &str, cases: &[Case]) -> Result<(), Fail> {
    let board = sets::board(alloc, rows)?;
    for (text, told) in cases {
        judge_text(rt, alloc, &board, text.as_bytes(), *told);
    }
    Ok(())
}

#[test]
fn certificates_with_patterns(rt: HostRuntime) -> Result<(), Fail> {
    let alloc = rt.alloc();
    judge(&rt, alloc, sketch::PAIR_THAT_IS_LOST, &PAIR_THAT_IS_LOST)?;
    judge(&rt, alloc, sketch::SOLVED, &SOLVED)
}
