//! Which texts are certificates, and writing them again.

use sok_cert::fault::CertFault;
use sok_cert::limits::fits;
use sok_cert::reading::read;
use sok_cert::writing::write;
use std::alloc::Global;
use std::process::Abort;
use std::test::Fail;

/// Entries of each form, of positions with up to three boxes.
const ALL_FORMS: &str = "\
sokoban-certificate 1
unsolvable
x 0 12 2 1 3
s 7 0 0
b 0 0 2 8 10 1 1 0 0 0
b 3 1 1 2 4
c 0 12 2 1 3 2 0 1
f 1000000 0 3 0 4 1000000 0
end
";

/// A pattern with positions of each form, one with none, and an entry that is no pattern.
const PATTERNS: &str = "\
sokoban-certificate 2
pushes 9
p 0 9 3 7 10 12 2 1 2 3
x 0 9 2 10 12
f 1 10 2 11 12 2 0 1
c 0 9 2 10 12 1 1
p 1 4 1 5 1 0 0
s 9 4 1 5
end
";

/// Reads a certificate and returns the bytes that are written for it.
fn written(rt: &impl Abort, alloc: Global, text: &[u8]) -> Result<Vec<u8>, Fail> {
    let certificate = read(alloc, text)?;
    assert!(rt; fits(&certificate));
    Ok(write(alloc, &certificate)?)
}

const SIX_PUSHES: &str =
    "sokoban-certificate 1\npushes 6\nx 0 4 1 5\nx 1 5 1 6\nb 2 6 1 7 4 0\nend\n";

/// An entry that is barred because all pushes are made.
const SPENT: &str = "sokoban-certificate 1\npushes 0\ns 0 1 1 2\nend\n";

/// What is read is written with LF alone, and otherwise with the same bytes.
#[test]
fn texts_are_written_again(rt: HostRuntime) -> Result<(), Fail> {
    for &(text, again) in &[
        (SIX_PUSHES, SIX_PUSHES),
        (ALL_FORMS, ALL_FORMS),
        (PATTERNS, PATTERNS),
        ("sokoban-certificate 2\npushes 0\ns 0 1 1 2\nend\n", SPENT),
        (
            "sokoban-certificate 1\r\npushes 0\r\ns 0 1 1 2\r\nend\r\n",
            SPENT,
        ),
        ("sokoban-certificate 1\r\npushes 0\ns 0 1 1 2\r\nend", SPENT),
    ] {
        let bytes = written(&rt, rt.alloc(), text.as_bytes())?;
        assert_eq!(rt; bytes.as_slice(), again.as_bytes(), "{text}");
    }
    Ok(())
}

/// Texts whose first two lines are not those of a certificate.
const NO_HEADERS: [&str; 20] = [
    "",
    "\n",
    "sokoban-certificate 1",
    "sokoban-certificate 1\n",
    "sokoban-certificate 1 \npushes 1\nend\n",
    "sokoban-certificate 3\npushes 1\nend\n",
    "sokoban-certificate 2\n\npushes 1\nend\n",
    " sokoban-certificate 1\npushes 1\nend\n",
    "pushes 1\nsokoban-certificate 1\nend\n",
    "sokoban-certificate 1\n\npushes 1\nend\n",
    "sokoban-certificate 1\npushes\nend\n",
    "sokoban-certificate 1\npushes \nend\n",
    "sokoban-certificate 1\npushes 01\nend\n",
    "sokoban-certificate 1\npushes +1\nend\n",
    "sokoban-certificate 1\npushes -1\nend\n",
    "sokoban-certificate 1\npushes 1000001\nend\n",
    "sokoban-certificate 1\npushes 1 \nend\n",
    "sokoban-certificate 1\nunsolvable \nend\n",
    "sokoban-certificate 1\nUnsolvable\nend\n",
    "sokoban-certificate 1\nend\n",
];

/// Third lines that are neither an entry nor the end.
const NO_ENTRIES: [&str; 30] = [
    "\n",
    "x\n",
    "x \n",
    "x 0 4 1\n",
    "x 0 4 1 5 6\n",
    "x 0 4 1 5 \n",
    "x 0 4  1 5\n",
    " x 0 4 1 5\n",
    "x\t0 4 1 5\n",
    "x 0 4 1 05\n",
    "x 0 4 1 00\n",
    "x 00 4 1 5\n",
    "x 0 4 1 1000001\n",
    "x 0 4 1 4294967296\n",
    "x 0 4 1000001\n",
    "x 0 4 1 -5\n",
    "x 0 4 1 5\r\r\n",
    "X 0 4 1 5\n",
    "y 0 4 1 5\n",
    "xs 0 4 1 5\n",
    "s 0 4 1 5 0\n",
    "b 2 6 1 7\n",
    "b 2 6 2 7 8 4\n",
    "b 0 00 1 1 1 0\nend\n",
    "c 0 0 1 2\n",
    "c 0 0 1 2 1\n",
    "c 0 0 1 2 1 0 0\n",
    "f 0 0 1 2 2 0\n",
    "end \n",
    "End\n",
];

/// Lines without the end.
const NO_END: [&str; 7] = [
    "",
    "end\r",
    "b 0 0 1 1 1 0\n",
    "b 0 0 1 1 1 0",
    "b 0 00 1 1 1 0",
    "b 0 0 1 1 1 0\nen",
    "b 0 0 1 1 1 0\nend ",
];

/// Lines after a pattern that has two inner positions, of which one was read.
const NO_POSITIONS: [&str; 8] = [
    "end\n",
    "\n",
    "s 1 10 2 11 12\n",
    "b 1 10 2 11 12 1 1 0\n",
    "p 1 10 2 11 12 2 0 1 0\n",
    "x 1 10 2 11 12 0\n",
    "c 1 10 2 11 12 2 0\n",
    "x 1 10 2 11 012\nend\n",
];

/// Lines after the first of two inner positions of a pattern, which is cut off there.
const NO_PATTERN_END: [&str; 4] = ["", "end", "x 1 10 2 11 12", "p"];

/// Third lines that don't begin a pattern.
const NO_PATTERNS: [&str; 6] = [
    "p 0 9 3 7 10 12 2 1 2\nend\n",
    "p 0 9 3 7 10 12 2 1 2 1000001\n",
    "p 0 9 3 7 10 12 2 1 2 0 0\n",
    "p 0 9 3 7 10 12 3 1 2 0\n",
    "p 0 9 3 7 10\n",
    "P 0 9 3 7 10 12 2 1 2 0\n",
];

/// Asserts the fault of a text that consists of a front and a rest.
fn assert_fault(
    rt: &impl Abort,
    alloc: Global,
    front: &str,
    behind: &str,
    fault: CertFault,
) -> Result<(), Fail> {
    let mut text = String::from_str(alloc, front)?;
    text.push_str(behind)?;
    let found = read(alloc, text.as_bytes()).err();
    assert_eq!(rt; found, Some(fault), "in {text:?}");
    Ok(())
}

/// Ends with something after the first of them.
const ENDS_TWICE: [&str; 2] = ["end\nend\n", "b 0 0 1 1 1 0\nen\nend"];

/// Lines with something after the end.
const MORE: [&str; 3] = [
    "b 0 0 1 1 1 0\nend\n\n",
    "b 0 0 1 1 1 0\nend\r\n\r\n",
    "b 0 0 1 1 1 0\nend\n ",
];

/// A pattern, which only the second version has.
const IN_VERSION_1: [&str; 1] = ["p 0 9 3 7 10 12 2 1 2 0\nend\n"];

/// The last position of a pattern, and a line after it that is no entry.
const BEHIND_PATTERN: [&str; 1] = ["x 1 10 2 11 12\nx 0 9 2 10 12 9\n"];

/// The first two lines of each version, and those with the front of a pattern.
const FIRST: &str = "sokoban-certificate 1\npushes 1\n";

const SECOND: &str = "sokoban-certificate 2\npushes 1\n";

const INSIDE: &str = "sokoban-certificate 2\npushes 1\np 0 9 3 7 10 12 2 1 2 2\nx 0 9 2 10 12\n";

#[test]
fn first_fault_of_a_text(rt: HostRuntime) -> Result<(), Fail> {
    let cases: &[(&str, &[&str], CertFault)] = &[
        ("", &NO_HEADERS, CertFault::Header),
        (SECOND, &NO_ENTRIES, CertFault::Line(3)),
        (SECOND, &NO_PATTERNS, CertFault::Line(3)),
        (FIRST, &IN_VERSION_1, CertFault::Line(3)),
        (INSIDE, &NO_POSITIONS, CertFault::Line(5)),
        (INSIDE, &NO_PATTERN_END, CertFault::Truncated),
        (INSIDE, &BEHIND_PATTERN, CertFault::Line(6)),
        (FIRST, &NO_ENTRIES, CertFault::Line(3)),
        (FIRST, &NO_END, CertFault::Truncated),
        (FIRST, &ENDS_TWICE, CertFault::Line(4)),
        (FIRST, &MORE, CertFault::Line(5)),
    ];
    for &(front, texts, fault) in cases {
        for behind in texts {
            assert_fault(&rt, rt.alloc(), front, behind, fault)?;
        }
    }
    Ok(())
}

/// 65,536 entries in a mebibyte.
#[test]
fn a_mebibyte_of_entries(rt: HostRuntime) -> Result<(), Fail> {
    let line = "x 12 345 2 6 78\n";
    let mut text = String::from_str(rt.alloc(), "sokoban-certificate 1\nunsolvable\n")?;
    text.push_str(line.repeat(rt.alloc(), 65_536)?.as_str())?;
    text.push_str("end\n")?;
    let bytes = written(&rt, rt.alloc(), text.as_bytes())?;
    assert_eq!(rt; bytes.as_slice(), text.as_bytes());
    Ok(())
}
