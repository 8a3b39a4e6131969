//! The lines of a history.
ghost use Rattle.std.specs.Prelude.{◌≡◌, ℕ, ◌+◌, ◌<◌, ◌≤◌, ◌++◌, decimal, length, codes, IsTrue};
ghost use Rattle.arrayvec.specs.ArrayString.{array_string_len};
ghost use Rattle.bridge_replay.specs.Lines.{idle_name, idle_line, reason, kind_name, with_serial, lost_line, refused_line, shown_line, size_words, line_of_event, reply_name, command_line, take_words, waited_below, waiting_words, tick_line, lane_words, end_line};
ghost use Rattle.chair_words.specs.Line.{has_sayable_lane};
ghost use Rattle.h261_pic.specs.Coded.{coding, IsFinished};
ghost use Rattle.pel_model.specs.declared.Format.TheVariants.{Qcif};
ghost use Rattle.pel_model.specs.Records.{Picture};
ghost use Rattle.rtp_h261.specs.Events.{Shown};

use crate::idle::Idle;
use arrayvec::ArrayString;
use chair_words::write_line;
use h261_pic::Coded;
use itoa::Buffer;
use pel_model::{Command, Fault, Reply, Take, TickNote, Why};

/// A line, or less.
pub type Line = ArrayString<1024>;

/// The beginning of a line: the place of its entry.
fn begin(place: u64) -> Line
    ensures bytes { result.bytes ≡ decimal place ++ codes " " }
    ensures len { array_string_len result ≤ 21 }
{
    let mut line = Line::new();
    push_number(&mut line, place);
    line.push_str(" ");
    line
}

/// The line of a packet that gave nothing.
#[tactic(auto, unfolding(crate::specs::Lines::idle_line))]
pub fn idle_line(place: u64, lane: u8, idle: Idle) -> Line
    ensures { result.bytes ≡ idle_line place lane idle }
{
    let mut line = begin(place);
    line.push_str("packet lane ");
    push_number(&mut line, u64::from(lane));
    line.push_str(" ");
    line.push_str(idle_name(idle));
    line.push_str("\n");
    line
}

/// The name of a reason.
fn idle_name(idle: Idle) -> &'static str
    ensures name { result.now ≡ idle_name idle }
    ensures short { length result.now ≤ 8 }
{
    match idle {
        Idle::Unusable => "unusable",
        Idle::Repeated => "repeated",
        Idle::Late => "late",
    }
}

/// The beginning of the line of a step of a lane.
fn begin_arrival(place: u64, name: &str, lane: u8, serial: u64) -> Line
    requires { length name.now ≤ 7 }
    ensures bytes { result.bytes ≡ decimal place ++ codes " " ++ with_serial name.now lane serial }
    ensures len { array_string_len result ≤ 100 }
{
    let mut line = begin(place);
    line.push_str(name);
    line.push_str(" lane ");
    push_number(&mut line, u64::from(lane));
    line.push_str(" serial ");
    push_number(&mut line, serial);
    line.push_str(" ");
    line
}

/// The line of a loss.
#[tactic(auto, unfolding(crate::specs::Lines::lost_line))]
pub fn lost_line(place: u64, lane: u8, serial: u64) -> Line
    ensures { result.bytes ≡ lost_line place lane serial }
{
    let mut line = begin_arrival(place, "gap", lane, serial);
    line.push_str("lost\n");
    line
}

/// The line of a unit that is no picture.
#[tactic(auto, unfolding(crate::specs::Lines::refused_line))]
pub fn refused_line(place: u64, lane: u8, serial: u64, fault: &Fault) -> Line
    ensures { result.bytes ≡ refused_line place lane serial fault.now.place fault.now.why }
{
    let mut line = begin_arrival(place, "gap", lane, serial);
    line.push_str(reason(fault.why));
    line.push_str(" at ");
    push_number(&mut line, u64::from(fault.place));
    line.push_str("\n");
    line
}

/// The name of a reason.
fn reason(why: Why) -> &'static str
    ensures name { result.now ≡ reason why }
    ensures short { length result.now ≤ 13 }
{
    match why {
        Why::NoStart => "NoStart",
        Why::WrongFormat => "WrongFormat",
        Why::StillImage => "StillImage",
        Why::BadGroup => "BadGroup",
        Why::BadQuant => "BadQuant",
        Why::TooLong => "TooLong",
        Why::NoCode => "NoCode",
        Why::Cut => "Cut",
        Why::BadAddress => "BadAddress",
        Why::BadVector => "BadVector",
        Why::VectorOutside => "VectorOutside",
        Why::BadDc => "BadDc",
        Why::BadLevel => "BadLevel",
        Why::TooMany => "TooMany",
    }
}

/// The line of a picture.
pub fn picture_line(place: u64, lane: u8, serial: u64, picture: &Coded) -> Line
    ensures { (p : Picture) → picture.now ≡ coding Qcif p → result.bytes ≡ line_of_event place lane serial (Shown p) }
{
    shown_line(
        place,
        lane,
        serial,
        picture.is_refresh(),
        picture.bits().len(),
        picture.marks().len(),
    )
}

/// The line of a picture of which this is told.
#[tactic(auto, unfolding(crate::specs::Lines::shown_line))]
fn shown_line(
    place: u64,
    lane: u8,
    serial: u64,
    refresh: bool,
    bits: u32,
    macroblocks: usize,
) -> Line
    ensures { result.bytes ≡ shown_line place lane serial refresh bits macroblocks }
{
    let mut line = begin_arrival(place, "picture", lane, serial);
    line.push_str(kind_name(refresh));
    push_size(&mut line, bits, macroblocks);
    line.push_str("\n");
    line
}

/// Appends how many bits a picture has, and how many macroblocks it sends.
#[tactic(auto, unfolding(crate::specs::Lines::size_words))]
fn push_size(line: &mut Line, bits: u32, macroblocks: usize)
    requires room { array_string_len line.old ≤ 500 }
    ensures bytes { line.new.bytes ≡ line.old.bytes ++ size_words bits macroblocks }
    ensures len { array_string_len line.new ≤ array_string_len line.old + 100 }
{
    line.push_str(" bits ");
    push_number(line, u64::from(bits));
    line.push_str(" macroblocks ");
    push_number(line, macroblocks as u64);
}

/// The name of a picture's kind.
fn kind_name(refresh: bool) -> &'static str
    ensures name { result.now ≡ kind_name refresh }
    ensures short { length result.now ≤ 7 }
{
    if refresh { "refresh" } else { "change" }
}

/// The line of a command, whose lane is at most 15, and its answer.
#[tactic(auto, unfolding(crate::specs::Lines::command_line))]
pub fn command_line(place: u64, command: Command, reply: Reply) -> Line
    requires { IsTrue (has_sayable_lane command) }
    ensures { result.bytes ≡ command_line place command reply }
{
    let words = write_line(command);
    let mut line = begin(place);
    line.push_str("command ");
    line.push_str(words.as_str());
    line.push_str(" ");
    line.push_str(reply_name(reply));
    line.push_str("\n");
    line
}

/// The name of an answer.
fn reply_name(reply: Reply) -> &'static str
    ensures name { result.now ≡ reply_name reply }
    ensures short { length result.now ≤ 9 }
{
    match reply {
        Reply::Done => "Done",
        Reply::NoLane => "NoLane",
        Reply::SamePlace => "SamePlace",
        Reply::AllPinned => "AllPinned",
    }
}

/// The line of a tick.
#[tactic(auto, unfolding(crate::specs::Lines::tick_line))]
pub fn tick_line(place: u64, note: &TickNote) -> Line
    ensures { result.bytes ≡ tick_line place note.now }
{
    let mut line = begin(place);
    line.push_str("tick step ");
    push_number(&mut line, u64::from(note.step));
    line.push_str(" total ");
    push_number(&mut line, note.total);
    line.push_str(" taken");
    push_take(&mut line, note.taken_one);
    push_take(&mut line, note.taken_two);
    push_take(&mut line, note.taken_three);
    push_take(&mut line, note.taken_four);
    line.push_str(" waiting");
    push_waiting(&mut line, note.waiting);
    line.push_str("\n");
    line
}

/// Appends what a place took.
fn push_take(line: &mut Line, take: Option<Take>)
    requires room { array_string_len line.old ≤ 900 }
    ensures bytes { line.new.bytes ≡ line.old.bytes ++ take_words take }
    ensures len { array_string_len line.new ≤ array_string_len line.old + 42 }
{
    match take {
        None => line.push_str(" -"),
        Some(take) => {
            line.push_str(" ");
            push_number(line, u64::from(take.lane));
            line.push_str(":");
            push_number(line, take.serial);
        }
    }
}

/// Appends the lanes that are waited for.
fn push_waiting(line: &mut Line, waiting: u16)
    requires room { array_string_len line.old ≤ 600 }
    ensures bytes { line.new.bytes ≡ line.old.bytes ++ waiting_words waiting }
    ensures len { array_string_len line.new ≤ array_string_len line.old + 336 }
{
    if waiting == 0 {
        line.push_str(" -");
    } else {
        push_lanes(line, waiting);
    }
}

/// Appends the lanes whose bits are set.
fn push_lanes(line: &mut Line, waiting: u16)
    requires room { array_string_len line.old ≤ 600 }
    ensures bytes { line.new.bytes ≡ line.old.bytes ++ waited_below 16 waiting }
    ensures len { array_string_len line.new ≤ array_string_len line.old + 336 }
{
    let mut lane = 0;
    while lane < 16 {
        push_lane(line, waiting, lane);
        lane += 1;
    }
}

/// Appends a lane, if its bit is set.
fn push_lane(line: &mut Line, waiting: u16, lane: u32)
    requires room { array_string_len line.old ≤ 1000 }
    requires lane { lane < 16 }
    ensures bytes { line.new.bytes ≡ line.old.bytes ++ lane_words lane waiting }
    ensures len { array_string_len line.new ≤ array_string_len line.old + 21 }
{
    if waiting >> lane & 1 == 1 {
        line.push_str(" ");
        push_number(line, u64::from(lane));
    }
}

/// The line of the end.
#[tactic(auto, unfolding(crate::specs::Lines::end_line))]
pub fn end_line(place: u64) -> Line
    ensures { result.bytes ≡ end_line place }
{
    let mut line = begin(place);
    line.push_str("end\n");
    line
}

/// Appends a number in decimal.
fn push_number(line: &mut Line, number: u64)
    requires room { array_string_len line.old ≤ 1004 }
    ensures bytes { line.new.bytes ≡ line.old.bytes ++ decimal number }
    ensures len { array_string_len line.new ≤ array_string_len line.old + 20 }
{
    let mut digits = Buffer::new();
    line.push_str(digits.format(number));
}
