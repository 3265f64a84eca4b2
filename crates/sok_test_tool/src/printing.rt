//! The line of each fault.

use sok_board::fault::BoardFault;
use sok_book::fault::BookFault;
use sok_engine::fault::ToolFault;
use sok_rules::cell::Spot;
use sok_rules::fault::{LevelFault, PlayFault};
use sok_text::lurd::LurdFault;
use std::fmt::InlineText;

#[test]
fn faults_are_displayed(rt: HostRuntime) {
    for &(fault, text) in &[
        (ToolFault::Level(LevelFault::TooWide), "fault 1 TooWide"),
        (ToolFault::Level(LevelFault::TooTall), "fault 2 TooTall"),
        (ToolFault::Level(LevelFault::NoPlayer), "fault 3 NoPlayer"),
        (
            ToolFault::Level(LevelFault::ManyPlayers),
            "fault 4 ManyPlayers",
        ),
        (ToolFault::Level(LevelFault::NoBox), "fault 5 NoBox"),
        (
            ToolFault::Board(BoardFault::NotEnclosed(Spot { row: 1, col: 3 })),
            "fault 6 NotEnclosed 1 3",
        ),
        (
            ToolFault::Board(BoardFault::BoxOutside(Spot { row: 63, col: 62 })),
            "fault 7 BoxOutside 63 62",
        ),
        (
            ToolFault::Board(BoardFault::TooFewGoals),
            "fault 8 TooFewGoals",
        ),
        (ToolFault::Board(BoardFault::TooLarge), "fault 9 TooLarge"),
        (
            ToolFault::Board(BoardFault::TooManyBoxes),
            "fault 10 TooManyBoxes",
        ),
        (
            ToolFault::Lurd(LurdFault::BadLetter(7)),
            "fault 11 BadLetter 7",
        ),
        (
            ToolFault::Play(PlayFault::Blocked(999_999)),
            "fault 12 Blocked 999999",
        ),
        (ToolFault::Book(BookFault::NotSolved), "fault 13 NotSolved"),
        (ToolFault::Lurd(LurdFault::TooLong), "fault 14 TooLong"),
        (
            ToolFault::Level(LevelFault::NoSuchLevel),
            "fault 15 NoSuchLevel",
        ),
        (ToolFault::BadLimit, "fault 16 BadLimit"),
        (ToolFault::Level(LevelFault::NoWall(0)), "fault 17 NoWall 0"),
        (ToolFault::Book(BookFault::NoLevel), "fault 30 NoLevel"),
        (ToolFault::Book(BookFault::NoBest), "fault 31 NoBest"),
        (ToolFault::Book(BookFault::Database), "fault 32 Database"),
        (
            ToolFault::Book(BookFault::ClaimDiffers),
            "fault 33 ClaimDiffers",
        ),
        (ToolFault::Book(BookFault::BadBook(2)), "fault 34 BadBook 2"),
        (ToolFault::Book(BookFault::BookFull), "fault 35 BookFull"),
        (ToolFault::Memory, "fault 40 Memory"),
        (ToolFault::ReadFailed, "fault 50 ReadFailed"),
        (ToolFault::WriteFailed, "fault 51 WriteFailed"),
        (ToolFault::TooMuch, "fault 52 TooMuch"),
    ] {
        let shown = InlineText::<64>::of(fault);
        assert_eq!(rt; shown.as_str(), text);
    }
}
