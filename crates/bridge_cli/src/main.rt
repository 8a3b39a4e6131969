//! The program: it does the job that its words ask for, from standard input to standard output, and tells on standard error
//! how it ended. Everything but the real input, output, files and arguments stands in `run` and `live`.
#![tactic(auto)]

#[cfg(test)]
mod apart_tests;
mod beginning;
mod live;
#[cfg(test)]
mod live_tests;
mod notes;
mod opening;
mod progress;
mod run;
mod settings;
mod status;
#[cfg(test)]
mod tests;
mod texts;

use beginning::{Beginning, Kind};
use command_words::{Command, Job, read_words, unknown_command, what_is_wrong};
use io_edge::{Failed, FileHouse, LineTicker, MemSink, ReadEdge, WriteEdge, put_all};
use live::{LiveEnd, live};
use notes::{failed, note};
use progress::Progress;
use run::run;
use status::Status;
use std::env;
use std::fs::{self, File};
use std::io::{self, BufReader, BufWriter, ErrorKind, IsTerminal, Read, Write};
use std::process::ExitCode;
use std::sync::Wait;
use std::thread::Threads;
use texts::{Help, USAGE, VERSION};

/// The octets that standard input and standard output are read and written by.
const BUFFER: usize = 65_536;

/// The most octets of the line of notes.
const LONGEST_NOTE: usize = 256;

fn main(rt: HostRuntime) -> ExitCode {
    let status = match arguments(&rt) {
        Ok(words) => answer(&rt, &rt, &words),
        Err(status) => {
            let status = tell(&rt, status);
            if status == Status::Usage {
                let _told = eprintln!(rt; "a word is not UTF-8\n{USAGE}");
            }
            status
        }
    };
    ExitCode::from(status.number())
}

// The words after the program's name. Words that are not UTF-8 ask for nothing.
fn arguments(rt: &HostRuntime) -> Result<Vec<String>, Status> {
    match env::args(rt) {
        Ok(args) => args
            .skip(1)
            .collect(rt.alloc())
            .map_err(|_| Status::NoMemory),
        Err(error) if error.kind() == ErrorKind::OutOfMemory => Err(Status::NoMemory),
        Err(_error) => Err(Status::Usage),
    }
}

// Answers words that ask for help or for the version, and does what any other words ask for. What is told a person behind the
// line of notes is told where it can be: the status alone says how it ended.
fn answer(rt: &HostRuntime, threads: &(impl Threads + Wait + Sync), words: &[String]) -> Status {
    match words {
        [word] if asks_for_help(word.as_str()) || word.as_str() == "help" => printed(
            rt,
            print!(rt; "{Help}"),
        ),
        [word] if word.as_str() == "--version" || word.as_str() == "-V" => printed(
            rt,
            rt.println(VERSION),
        ),
        [word, name] if word.as_str() == "help" => help_of(rt, name.as_str()),
        [name, word] if asks_for_help(word.as_str()) => help_of(rt, name.as_str()),
        _ => {
            let status = obey(rt, threads, words);
            if status == Status::Usage {
                let _told = explain(rt, words);
            }
            status
        }
    }
}

// Whether the word is the option that asks for help.
fn asks_for_help(word: &str) -> bool {
    word == "--help" || word == "-h"
}

// Prints what a person is told of a command.
fn help_of(rt: &HostRuntime, name: &str) -> Status {
    match Command::named(name) {
        Some(command) => printed(rt, print!(rt; "{command}")),
        None => {
            let status = tell(rt, Status::Usage);
            let wrong = unknown_command(rt.alloc(), name);
            let _told = eprintln!(rt; "{wrong}\n{USAGE}");
            status
        }
    }
}

// How a run that only prints ended. That it could not is told.
fn printed(rt: &HostRuntime, printing: io::Result<()>) -> Status {
    match printing {
        Ok(()) => Status::Done,
        Err(_error) => tell(rt, Status::WriteFault),
    }
}

// Tells a fault on standard error.
fn tell(rt: &HostRuntime, status: Status) -> Status {
    note(&failed(status), &mut WriteEdge::new(rt.stderr()))
}

// The command that is the first word.
fn command_of(words: &[String]) -> Option<Command> {
    Command::named(words.first()?.as_str())
}

// Tells a person what is the matter with words that ask for no job, and which words ask for one.
fn explain(rt: &HostRuntime, words: &[String]) -> io::Result<()> {
    if let Some(wrong) = what_is_wrong(rt.alloc(), words) {
        eprintln!(rt; "{wrong}")?;
    }
    match command_of(words) {
        Some(command) => eprint!(rt; "{command}"),
        None => rt.eprintln(USAGE),
    }
}

// Does what the words ask for over the standard streams. Lines for a person are handed on one by one, since a lane may be
// watched as it comes.
fn obey(rt: &HostRuntime, threads: &(impl Threads + Wait + Sync), words: &[String]) -> Status {
    match command_of(words) {
        Some(Command::Live) => live_on_standard_streams(rt, threads, words),
        Some(Command::History | Command::Check) => run_into(rt, words, io::writer(rt)),
        _ => match BufWriter::with_capacity(rt.alloc(), BUFFER, io::writer(rt)) {
            Ok(writer) => run_into(rt, words, writer),
            Err(_error) => tell(rt, Status::NoMemory),
        },
    }
}

// Runs the words from standard input into a writer. What the writer holds back is handed on before the line of notes is, so
// that the line tells of that too.
fn run_into(rt: &HostRuntime, words: &[String], writer: impl Write + Drop) -> Status {
    let alloc = rt.alloc();
    let mut progress = Progress::new(
        Beginning::new(rt.reader()),
        rt,
        input_size(rt),
        is_watched(rt),
    );
    let Ok(reader) = BufReader::with_capacity(alloc, BUFFER, &mut progress) else {
        return tell(rt, Status::NoMemory);
    };
    let Ok(mut notes) = MemSink::reserve(alloc, LONGEST_NOTE, Vec::new(alloc), LONGEST_NOTE) else {
        return tell(rt, Status::NoMemory);
    };
    let mut input = ReadEdge::new(reader);
    let mut output = WriteEdge::new(writer);
    let ran = run(alloc, words, &mut input, &mut output, &mut notes);
    let status = ran.after_flush(output.flush());
    drop(input);
    let beginning = progress.ended();
    let status = if status == ran {
        hand_on(rt, status, notes.bytes())
    } else {
        tell(rt, status)
    };
    if let (Some(kind), Some(command)) = (beginning.kind(), command_of(words)) {
        let _told = tell_kind(rt, status, command, kind);
    }
    status
}

// Whether a person is told how far long work has come: where standard error is a terminal that the output does not go to.
fn is_watched(rt: &HostRuntime) -> bool {
    rt.stderr().is_terminal() && !rt.stdout().is_terminal()
}

// The octets of standard input, where it is a file.
fn input_size(rt: &HostRuntime) -> Option<u64> {
    match fs::metadata(rt, "/dev/stdin") {
        Ok(metadata) if metadata.is_file() => Some(metadata.len()),
        _ => None,
    }
}

// Tells a person whose input is at fault that it looks like another kind of file than the command reads.
fn tell_kind(rt: &HostRuntime, status: Status, command: Command, kind: Kind) -> io::Result<()> {
    match status {
        Status::Cut { .. } | Status::BadRecord { .. } if !kind.is_read_by(command) => eprintln!(rt;
            "the input looks like {kind}"
        ),
        _ => Ok(()),
    }
}

// Holds a live conference, whose ticker reads standard input. Each packet is handed on as it is written. A standard input that
// cannot be read is a fault before any name is opened: where it is closed, what is opened first would stand in its place.
fn live_on_standard_streams(
    rt: &HostRuntime,
    threads: &(impl Threads + Wait + Sync),
    words: &[String],
) -> Status {
    let alloc = rt.alloc();
    let mut input = rt.reader();
    if matches!(read_words(alloc, words), Ok(Job::Live(_options))) && input.read(&mut []).is_err() {
        return tell(rt, Status::ReadFault);
    }
    let Ok(reader) = BufReader::with_capacity(alloc, BUFFER, input) else {
        return tell(rt, Status::NoMemory);
    };
    let mut house = FileHouse::new(rt);
    let ticker = LineTicker::new(reader);
    let output = WriteEdge::new(io::writer(rt));
    let mut notes = WriteEdge::new(rt.stderr());
    match live(
        threads, alloc, words, &mut house, ticker, output, &mut notes,
    ) {
        LiveEnd::Refused {
            status: status @ Status::OpenFault { lane },
            ..
        } => {
            let _told = tell_unopened(rt, words, lane);
            status
        }
        LiveEnd::Refused { status, .. } => status,
        LiveEnd::Served { status, .. } => status,
    }
}

// Tells a person the name that could not be opened, and why.
fn tell_unopened(rt: &HostRuntime, words: &[String], lane: u8) -> io::Result<()> {
    let Ok(Job::Live(options)) = read_words(rt.alloc(), words) else {
        return Ok(());
    };
    let name = match options.lanes.as_slice().get(usize::from(lane)) {
        Some(name) => *name,
        None => options.chair.as_str(),
    };
    match why_unopened(rt, name) {
        Some(error) => eprintln!(rt; "{name}: {error}"),
        None => rt.eprintln(name),
    }
}

// Why the file of this name cannot be opened. A FIFO is not tried, since it would wait for its writer.
fn why_unopened(rt: &HostRuntime, name: &str) -> Option<io::Error> {
    match fs::metadata(rt, name) {
        Ok(metadata) if metadata.is_file() => File::open(rt, name).err(),
        Ok(_metadata) => None,
        Err(error) => Some(error),
    }
}

// Hands the line of notes on to standard error.
fn hand_on(rt: &HostRuntime, status: Status, line: &[u8]) -> Status {
    match put_all(&mut WriteEdge::new(rt.stderr()), line) {
        Err(Failed) if status == Status::Done => Status::NoteFault,
        _ => status,
    }
}
