//! A live conference whose workers can't run one after another: each waits for something that another one does.

ghost use Rattle.std.specs.Prelude.{◌<◌, length, IfSome, IsErr, None};
ghost use Rattle.std.specs.Io.{ReadsAtMost};
ghost use Rattle.io_edge.specs.Causes.{HasCause};

use crate::live::{LiveEnd, live};
use crate::status::Status;
use bridge_live::{ChairStop, LaneStop};
use io_edge::{Failed, MemSink, MemSource, Opener, Sink, Source, Ticker};
use std::alloc::{AllocError, Global};
use std::sync::atomic::{AtomicBool, Ordering};
use std::test::Fail;

/// How often a sign is looked at before a wait is given up.
const LOOKS: u64 = 100_000_000;

/// A framed packet with a QCIF picture whose three groups send nothing: RTP of sequence number 0, a payload header that
/// leaves out the last two bits, and 110 bits.
const FIRST: &[u8] = b"\x00\x1E\x80\x9F\x00\x00\x00\x00\x00\x00abcd\x09\x00\x00\x00\
\x00\x01\x00\x86\x00\x01\x10\x80\x00\x4C\x20\x00\x15\x08";

/// The next packet, with the same.
const SECOND: &[u8] = b"\x00\x1E\x80\x9F\x00\x01\x00\x00\x00\x00abcd\x09\x00\x00\x00\
\x00\x01\x00\x86\x00\x01\x10\x80\x00\x4C\x20\x00\x15\x08";

/// What the objects of a conference tell one another: that it happened.
#[derive(Clone, Copy)]
enum Sign {
    /// The sink was given a packet.
    Written,
    /// Lane 0 gave its second picture.
    GivenAgain,
    /// Lane 0 was asked behind its last picture.
    FirstAtEnd,
    /// Lane 1 was.
    SecondAtEnd,
    /// The chair was asked behind its last line.
    ChairAtEnd,
}

/// Which of them happened.
#[derive(Drop)]
struct Signs {
    written: AtomicBool,
    given_again: AtomicBool,
    first_at_end: AtomicBool,
    second_at_end: AtomicBool,
    chair_at_end: AtomicBool,
}

impl Signs {
    fn new() -> Signs {
        Signs {
            written: AtomicBool::new(false),
            given_again: AtomicBool::new(false),
            first_at_end: AtomicBool::new(false),
            second_at_end: AtomicBool::new(false),
            chair_at_end: AtomicBool::new(false),
        }
    }

    fn of(&self, sign: Sign) -> &AtomicBool {
        match sign {
            Sign::Written => &self.written,
            Sign::GivenAgain => &self.given_again,
            Sign::FirstAtEnd => &self.first_at_end,
            Sign::SecondAtEnd => &self.second_at_end,
            Sign::ChairAtEnd => &self.chair_at_end,
        }
    }

    fn show(&self, sign: Sign) {
        self.of(sign).store(true, Ordering::SeqCst);
    }

    // Whether the sign is shown within so many looks.
    fn comes(&self, sign: Sign) -> bool {
        for _ in 0..LOOKS {
            if self.of(sign).load(Ordering::SeqCst) {
                return true;
            }
        }
        false
    }

    // Whether all of them are.
    fn come(&self, signs: &[Sign]) -> bool {
        signs.iter().all(|sign| self.comes(*sign))
    }
}

/// What a source gives next, and what it does before: it shows a sign, waits for others, and shows one more.
#[derive(Drop)]
struct Part {
    source: MemSource,
    asked: Option<Sign>,
    waits: &'static [Sign],
    given: Option<Sign>,
}

/// A source of some parts. It fails where a wait is in vain.
#[derive(Drop)]
struct Parted<'a> {
    signs: &'a Signs,
    parts: Vec<Part>,
    at: usize,
    faults: u64,
}

// Whether the part may be given.
fn opens(signs: &Signs, part: &Part) -> bool {
    if let Some(sign) = part.asked {
        signs.show(sign);
    }
    if !signs.come(part.waits) {
        return false;
    }
    if let Some(sign) = part.given {
        signs.show(sign);
    }
    true
}

impl<'a> Parted<'a> {
    fn fail<T>(&mut self) -> Result<T, Failed>
        ensures cause { HasCause self.old.faults self.new.faults result }
        ensures fault { IsErr result }
    {
        self.faults = self.faults.saturating_add(1);
        Err(Failed)
    }

    // Reads from the part that is open. Only the last one may be empty.
    fn take(&mut self, buf: &mut [u8]) -> Result<usize, Failed>
        requires { 0 < length buf.old }
        ensures bound { ReadsAtMost result buf.new }
        ensures cause { HasCause self.old.faults self.new.faults result }
    {
        let Some(part) = self.parts.get_mut(self.at) else {
            return Ok(0);
        };
        match part.source.read(buf) {
            Ok(count) => Ok(count),
            Err(Failed) => self.fail(),
        }
    }
}

impl<'a> Source for Parted<'a> {
    ghost tells = { λ s. record { left = None; faults = s.faults } };

    fn read(&mut self, buf: &mut [u8]) -> Result<usize, Failed> {
        let count = self.take(buf)?;
        let next = self.at.saturating_add(1);
        if count > 0 || self.parts.len() <= next {
            return Ok(count);
        }
        if !opens(self.signs, &self.parts[next]) {
            return self.fail();
        }
        self.at = next;
        self.take(buf)
    }
}

/// Parted sources by their names.
#[derive(Drop)]
struct PartedHouse<'a> {
    sources: Vec<(String, Parted<'a>)>,
    faults: u64,
}

impl<'a> PartedHouse<'a> {
    // The place of the first source of this name.
    fn place_of(&self, name: &str) -> Option<usize>
        ensures { IfSome result (λ at. at < length self.now.sources.items) }
    {
        for at in 0..self.sources.len() {
            if self.sources[at].0.as_str() == name {
                return Some(at);
            }
        }
        None
    }
}

impl<'a> Opener for PartedHouse<'a> {
    type Src = Parted<'a>;

    ghost tells = { λ h. record { names = None; faults = h.faults } };

    fn reach(&mut self, name: &str) -> Result<Parted<'a>, Failed> {
        let Some(at) = self.place_of(name) else {
            self.faults = self.faults.saturating_add(1);
            return Err(Failed);
        };
        let (_name, mut source) = self.sources.remove(at);
        source.faults = 0;
        Ok(source)
    }
}

/// A ticker of two steps. It gives the second one, and its end, after signs, and fails where a wait is in vain.
#[derive(Drop)]
struct PartedTicker<'a> {
    signs: &'a Signs,
    given: u8,
    faults: u64,
}

impl<'a> Ticker for PartedTicker<'a> {
    ghost tells = { λ t. record { left = None; faults = t.faults } };

    fn next(&mut self) -> Result<Option<u8>, Failed> {
        let waits: &[Sign] = match self.given {
            0 => &[],
            1 => &[Sign::SecondAtEnd],
            _ => &[Sign::FirstAtEnd, Sign::SecondAtEnd, Sign::ChairAtEnd],
        };
        if !self.signs.come(waits) {
            self.faults = self.faults.saturating_add(1);
            return Err(Failed);
        }
        if self.given >= 2 {
            return Ok(None);
        }
        self.given += 1;
        Ok(Some(1))
    }
}

/// A sink that shows that it was given a packet.
#[derive(Drop)]
struct ShownSink<'a> {
    signs: &'a Signs,
    sink: MemSink,
    faults: u64,
}

impl<'a> Sink for ShownSink<'a> {
    ghost tells = { λ s. record { written = None; faults = s.faults } };

    fn write(&mut self, piece: &[u8]) -> Result<usize, Failed> {
        match self.sink.write(piece) {
            Ok(count) => {
                self.signs.show(Sign::Written);
                Ok(count)
            }
            Err(Failed) => {
                self.faults = self.faults.saturating_add(1);
                Err(Failed)
            }
        }
    }
}

// A part of these octets.
fn new_part(
    alloc: Global,
    octets: &[u8],
    asked: Option<Sign>,
    waits: &'static [Sign],
    given: Option<Sign>,
) -> Result<Part, AllocError> {
    Ok(Part {
        source: MemSource::new(Vec::from_slice(alloc, octets)?, Vec::new(alloc), 64),
        asked,
        waits,
        given,
    })
}

// A source of these parts.
fn new_source<'a>(signs: &'a Signs, parts: Vec<Part>) -> Parted<'a> {
    Parted {
        signs,
        parts,
        at: 0,
        faults: 0,
    }
}

// Two lanes and a chair, each of which waits for the others.
fn sources<'a>(alloc: Global, signs: &'a Signs) -> Result<Vec<(String, Parted<'a>)>, AllocError> {
    let first = vec![in alloc;
        new_part(alloc, FIRST, None, &[], None)?,
        new_part(
            alloc,
            SECOND,
            None,
            &[Sign::Written, Sign::SecondAtEnd, Sign::ChairAtEnd],
            Some(Sign::GivenAgain)
        )?,
        new_part(alloc, b"", Some(Sign::FirstAtEnd), &[], None)?,
    ]?;
    let second = vec![in alloc;
        new_part(alloc, FIRST, None, &[], None)?,
        new_part(
            alloc,
            b"",
            Some(Sign::SecondAtEnd),
            &[Sign::GivenAgain],
            None
        )?,
    ]?;
    let chair = vec![in alloc;
        new_part(alloc, b"place 1 0\n", None, &[], None)?,
        new_part(
            alloc,
            b"",
            Some(Sign::ChairAtEnd),
            &[Sign::GivenAgain],
            None
        )?,
    ]?;
    let mut sources = Vec::new(alloc);
    sources.push((String::from_str(alloc, "first")?, new_source(signs, first)))?;
    sources.push((
        String::from_str(alloc, "second")?,
        new_source(signs, second),
    ))?;
    sources.push((String::from_str(alloc, "chair")?, new_source(signs, chair)))?;
    Ok(sources)
}

#[test]
fn no_two_workers_one_after_the_other(rt: HostRuntime) -> Result<(), Fail> {
    let alloc = rt.alloc();
    let signs = Signs::new();
    let mut words = Vec::new(alloc);
    for word in ["live", "--lanes=first,second", "--chair=chair"] {
        words.push(String::from_str(alloc, word)?)?;
    }
    let mut house = PartedHouse {
        sources: sources(alloc, &signs)?,
        faults: 0,
    };
    let ticker = PartedTicker {
        signs: &signs,
        given: 0,
        faults: 0,
    };
    let sink = ShownSink {
        signs: &signs,
        sink: MemSink::reserve(alloc, 1_000, Vec::new(alloc), 1_000)?,
        faults: 0,
    };
    let mut notes = MemSink::reserve(alloc, 256, Vec::new(alloc), 256)?;
    match live(
        &rt,
        alloc,
        words.as_slice(),
        &mut house,
        ticker,
        sink,
        &mut notes,
    ) {
        LiveEnd::Refused { status, .. } => assert_eq!(rt; status, Status::Done),
        LiveEnd::Served { status, end } => {
            assert_eq!(rt; status, Status::Done);
            assert_eq!(rt; end.chair.stop, ChairStop::Whole);
            for lane in end.lanes.as_slice() {
                assert_eq!(rt; lane.stop, LaneStop::Whole);
            }
            assert_eq!(rt; end.sink.sink.bytes().len(), 122);
        }
    }
    let line =
        b"done ticks 2 pictures 3 gaps 0 commands 1 refused 0 taken 0 packets 2 octets 122\n";
    assert_eq!(rt; notes.bytes(), line.as_slice());
    Ok(())
}
