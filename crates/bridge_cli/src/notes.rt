//! The line of notes that tells how a run ended.

ghost use Rattle.std.specs.Prelude.{◌≡◌, ◌+◌, ◌≤◌, ◌++◌, decimal, length};
ghost use Rattle.arrayvec.specs.ArrayString.{array_string_len};
ghost use Rattle.bridge_cli.specs.Runs.{Notes, without_note};
ghost use Rattle.bridge_cli.specs.Notes.{fault_line, history_line, line_for, made_line, planes_line, report_line, tally_line, word_for};

use crate::status::Status;
use arrayvec::ArrayString;
use bridge_replay::{LineTally, Tally};
use conf_file::EntryWhy;
use conf_make::MakeTally;
use io_edge::{Failed, Sink, put_all};
use itoa::Buffer;
use rtp_h261::UnitTally;

/// The most octets of a line.
const LONGEST: usize = 256;

/// A line of notes.
pub type Line = ArrayString<LONGEST>;

/// How a job ended, and the line that tells it.
#[derive(Drop)]
pub struct Ended {
    pub status: Status,
    pub line: Line,
}

/// An end with a fault, and its line.
pub fn failed(status: Status) -> Ended
    ensures { (result.status ≡ status) × (result.line.bytes ≡ fault_line status) }
{
    Ended {
        status,
        line: fault_line(status),
    }
}

/// Writes the line to `notes`. Gives the status of the run: that of the job, or NoteFault where a job that was done could
/// not be told of.
pub fn note<N: Sink>(ended: &Ended, notes: &mut N) -> Status
    ensures { Notes ended.now.status ended.now.line.bytes result (N.tells notes.old) (N.tells notes.new) }
{
    match put_all(notes, ended.line.as_bytes()) {
        Ok(()) => ended.status,
        Err(Failed) => without_note(ended.status),
    }
}

/// The status of a run whose line could not be written.
fn without_note(told: Status) -> Status
    ensures { result ≡ without_note told }
{
    match told {
        Status::Done => Status::NoteFault,
        other => other,
    }
}

/// The line of a conference that was composed.
#[tactic(auto, unfolding(crate::specs::Notes::tally_line))]
pub fn tally_line(tally: &Tally) -> Line
    ensures { result.bytes ≡ tally_line tally.now }
{
    let mut line = Line::new();
    line.push_str("done ticks ");
    push_number(&mut line, tally.ticks);
    line.push_str(" pictures ");
    push_number(&mut line, tally.pictures);
    line.push_str(" gaps ");
    push_number(&mut line, tally.gaps);
    line.push_str(" commands ");
    push_number(&mut line, tally.commands);
    line.push_str(" refused ");
    push_number(&mut line, tally.refused);
    line.push_str(" taken ");
    push_number(&mut line, tally.taken);
    line.push_str(" packets ");
    push_number(&mut line, tally.packets);
    line.push_str(" octets ");
    push_number(&mut line, tally.octets);
    line.push_str("\n");
    line
}

/// The line of a conference whose history was told.
#[tactic(auto, unfolding(crate::specs::Notes::history_line))]
pub fn history_line(tally: &LineTally) -> Line
    ensures { result.bytes ≡ history_line tally.now }
{
    let mut line = Line::new();
    line.push_str("done lines ");
    push_number(&mut line, tally.lines);
    line.push_str(" octets ");
    push_number(&mut line, tally.octets);
    line.push_str("\n");
    line
}

/// The line of framed packets that were reported.
#[tactic(auto, unfolding(crate::specs::Notes::report_line))]
pub fn report_line(tally: &UnitTally) -> Line
    ensures { result.bytes ≡ report_line tally.now }
{
    let mut line = Line::new();
    line.push_str("done pictures ");
    push_number(&mut line, tally.pictures);
    line.push_str(" gaps ");
    push_number(&mut line, tally.gaps);
    line.push_str("\n");
    line
}

/// The line of framed packets whose pictures were decoded.
#[tactic(auto, unfolding(crate::specs::Notes::planes_line))]
pub fn planes_line(tally: &UnitTally) -> Line
    ensures { result.bytes ≡ planes_line tally.now }
{
    let mut line = Line::new();
    line.push_str("done pictures ");
    push_number(&mut line, tally.pictures);
    line.push_str(" gaps ");
    push_number(&mut line, tally.gaps);
    line.push_str(" octets ");
    push_number(&mut line, tally.octets);
    line.push_str("\n");
    line
}

/// The line of a conference file of so many ticks that was made.
#[tactic(auto, unfolding(crate::specs::Notes::made_line))]
pub fn made_line(ticks: u32, tally: &MakeTally) -> Line
    ensures { result.bytes ≡ made_line ticks tally.now }
{
    let mut line = Line::new();
    line.push_str("done ticks ");
    push_number(&mut line, u64::from(ticks));
    line.push_str(" records ");
    push_number(&mut line, tally.records);
    line.push_str(" octets ");
    push_number(&mut line, tally.octets);
    line.push_str("\n");
    line
}

/// An end with this status: where it is Done, the line is that of the job.
pub fn told(status: Status, done: Line) -> Ended
    ensures { (result.status ≡ status) × (result.line.bytes ≡ line_for done.bytes status) }
{
    match status {
        Status::Done => Ended { status, line: done },
        status => failed(status),
    }
}

/// The line of a run that did not end as it should.
fn fault_line(status: Status) -> Line
    ensures { result.bytes ≡ fault_line status }
{
    let mut line = Line::new();
    match status {
        Status::Done | Status::NoteFault => {}
        Status::Usage => line.push_str("fault usage\n"),
        Status::ReadFault => line.push_str("fault read\n"),
        Status::WriteFault => line.push_str("fault write\n"),
        Status::Cut { place } => push_cut(&mut line, place),
        Status::BadRecord { place, why } => push_record(&mut line, place, why),
        Status::Limit => line.push_str("fault limit\n"),
        Status::OpenFault { lane } => push_open(&mut line, lane),
        Status::NoMemory => line.push_str("fault memory\n"),
    }
    line
}

/// Appends the line of an input that ends too early.
fn push_cut(line: &mut Line, place: u64)
    requires room { array_string_len line.old ≡ 0 }
    ensures { line.new.bytes ≡ line.old.bytes ++ fault_line (Status.Cut place) }
{
    line.push_str("fault cut at ");
    push_number(line, place);
    line.push_str("\n");
}

/// Appends the line of what is no entry of a conference file.
fn push_record(line: &mut Line, place: u64, why: EntryWhy)
    requires room { array_string_len line.old ≡ 0 }
    ensures { line.new.bytes ≡ line.old.bytes ++ fault_line (Status.BadRecord place why) }
{
    line.push_str("fault record at ");
    push_number(line, place);
    line.push_str(": ");
    line.push_str(word_for(why));
    line.push_str("\n");
}

/// Appends the line of what could not be opened.
fn push_open(line: &mut Line, lane: u8)
    requires room { array_string_len line.old ≡ 0 }
    ensures { line.new.bytes ≡ line.old.bytes ++ fault_line (Status.OpenFault lane) }
{
    line.push_str("fault open ");
    push_number(line, u64::from(lane));
    line.push_str("\n");
}

/// What is at fault in a conference file, as a word.
fn word_for(why: EntryWhy) -> &'static str
    ensures word { result.now ≡ word_for why }
    ensures short { length result.now ≤ 7 }
{
    match why {
        EntryWhy::Header => "header",
        EntryWhy::Kind => "kind",
        EntryWhy::Lane => "lane",
        EntryWhy::Step => "step",
        EntryWhy::Order(_fault) => "command",
    }
}

/// Appends a number in decimal.
fn push_number(line: &mut Line, number: u64)
    requires room { array_string_len line.old + 20 ≤ 256 }
    ensures bytes { line.new.bytes ≡ line.old.bytes ++ decimal number }
    ensures len { array_string_len line.new ≤ array_string_len line.old + 20 }
{
    let mut digits = Buffer::new();
    line.push_str(digits.format(number));
}
