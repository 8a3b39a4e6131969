//! What lines say, by the rule and by the faults that chairs make.

use crate::{Command, LineFault, LineWhy, Quad, has_words, read_line, write_line};
use std::process::Abort;

fn said(rt: &impl Abort, line: &[u8]) -> Result<Command, LineFault> {
    assert!(rt; line.len() <= 255);
    read_line(line)
}

fn fault(place: u16, why: LineWhy) -> Result<Command, LineFault> {
    Err(LineFault { place, why })
}

#[test]
fn chair_line_faults(rt: HostRuntime) {
    let table = [
        ("place 9", fault(6, LineWhy::BadNumber)),
        ("place 1", fault(7, LineWhy::Missing)),
        ("clear 1 2", fault(8, LineWhy::Extra)),
        ("", fault(0, LineWhy::Missing)),
        (" \t\r ", fault(4, LineWhy::Missing)),
        ("places 9 9 9", fault(0, LineWhy::Unknown)),
        ("  Place 1 2", fault(2, LineWhy::Unknown)),
        ("place\n1 2", fault(0, LineWhy::Unknown)),
        ("place 0 16", fault(6, LineWhy::BadNumber)),
        ("place 4 16", fault(8, LineWhy::BadNumber)),
        ("place 4 x 3", fault(8, LineWhy::BadNumber)),
        ("speaker 0015", fault(8, LineWhy::BadNumber)),
        ("speaker +1", fault(8, LineWhy::BadNumber)),
        ("swap 1", fault(6, LineWhy::Missing)),
        ("pin 5 5", fault(4, LineWhy::BadNumber)),
        ("unpin 3 \t4\r", fault(9, LineWhy::Extra)),
    ];
    for (line, expected) in table {
        assert_eq!(rt; said(&rt, line.as_bytes()), expected, "{line}");
    }
}

#[test]
fn lines_that_say_commands(rt: HostRuntime) {
    let table = [
        ("place 1 0", Command::Place(Quad::One, 0)),
        ("\t place\r004 \t 015 ", Command::Place(Quad::Four, 15)),
        ("clear 02", Command::Clear(Quad::Two)),
        ("swap 3 3", Command::Swap(Quad::Three, Quad::Three)),
        ("speaker 00", Command::Speaker(0)),
        ("pin 4", Command::Pin(Quad::Four)),
        ("unpin 001\r", Command::Unpin(Quad::One)),
    ];
    for (line, command) in table {
        assert_eq!(rt; said(&rt, line.as_bytes()), Ok(command), "{line}");
    }
}

#[test]
fn a_line_of_255_bytes(rt: HostRuntime) {
    let mut line = [b' '; 255];
    line[254] = b'x';
    assert_eq!(rt; said(&rt, &line), fault(254, LineWhy::Unknown));
    line[254] = b'\r';
    assert_eq!(rt; said(&rt, &line), fault(255, LineWhy::Missing));
}

#[test]
fn lines_without_words(rt: HostRuntime) {
    let table = [("", false), (" \t\r ", false), ("\n", true), (" \tx", true)];
    for (line, want) in table {
        assert_eq!(rt; has_words(line.as_bytes()), want, "{line}");
    }
}

#[test]
fn lines_of_commands(rt: HostRuntime) {
    let table = [
        (Command::Place(Quad::Two, 10), "place 2 10"),
        (Command::Clear(Quad::One), "clear 1"),
        (Command::Swap(Quad::Four, Quad::Three), "swap 4 3"),
        (Command::Pin(Quad::Three), "pin 3"),
        (Command::Unpin(Quad::Four), "unpin 4"),
    ];
    for (command, line) in table {
        let sayable = !matches!(command, Command::Place(_, 16..) | Command::Speaker(_));
        assert!(rt; sayable);
        assert_eq!(rt; write_line(command).as_str(), line);
    }
    assert_eq!(rt; write_line(Command::Speaker(9)).as_str(), "speaker 9");
}
