//! Files at the borders of each answer, cut, damaged and given in pieces, with answers counted by hand.

ghost use Rattle.std.specs.Prelude.{◌≤◌};

use super::{Entry, EntryEnd, EntryReader, EntryWhy};
use chair_words::{Command, LineFault, LineWhy, Quad};
use io_edge::MemSource;
use std::alloc::Global;
use std::test::Fail;

/// A header of two lanes, then a packet of lane 1, a command, a tick and the end, and an octet behind the end.
const FILE: &[u8; 30] = b"H261CONF\x01\x02P\x01\x00\x03\x07\x08\x09C\x07clear 1T\x1fEx";

/// The octets of the file up to its end.
const LENGTH: usize = 29;

/// What a reader gives: the first octets of the entries, the end if an entry is not it, the octets taken, and how
/// many the source has left.
#[derive(Drop)]
struct Outcome {
    kinds: Vec<u8>,
    end: Option<EntryEnd>,
    taken: u64,
    left: usize,
}

fn kind_of(entry: Entry<'_>) -> u8 {
    match entry {
        Entry::Packet { .. } => b'P',
        Entry::Order(_) => b'C',
        Entry::Step(_) => b'T',
        Entry::End => b'E',
    }
}

/// Reads these octets, with a call of the source that fails, in pieces of 1 to 7 octets, within a budget.
fn read_all(
    alloc: Global,
    octets: &[u8],
    fails: u64,
    piece: usize,
    budget: u64,
) -> Result<Outcome, Fail>
    requires { 1 ≤ piece }
{
    let mut bytes = Vec::new(alloc);
    bytes.extend_from_slice(octets)?;
    let mut source = MemSource::new(bytes, vec![in alloc; fails]?, piece);
    let mut reader = EntryReader::reserve(alloc, budget)?;
    let mut end = reader.start(&mut source).err();
    let mut kinds = Vec::new(alloc);
    for _ in 0..9 {
        if reader.is_reading() {
            match reader.next(&mut source) {
                Ok(entry) => kinds.push(kind_of(entry))?,
                Err(why) => end = Some(why),
            }
        }
    }
    Ok(Outcome {
        kinds,
        end,
        taken: reader.taken(),
        left: source.left().len(),
    })
}

/// The entries of `FILE` that are whole within so many octets.
fn whole_within(octets: usize) -> &'static [u8] {
    match octets {
        0..=16 => b"",
        17..=25 => b"P",
        26..=27 => b"PC",
        28 => b"PCT",
        _ => b"PCTE",
    }
}

#[test]
fn entries_say_what_they_spell(rt: HostRuntime) -> Result<(), Fail> {
    let alloc = rt.alloc();
    let mut bytes = Vec::new(alloc);
    bytes.extend_from_slice(FILE)?;
    let mut source = MemSource::new(bytes, Vec::new(alloc), 99);
    let mut reader = EntryReader::reserve(alloc, 99)?;
    assert_eq!(rt; reader.start(&mut source), Ok(2));
    let mut steps = 0;
    for _ in 0..9 {
        if reader.is_reading() {
            match reader.next(&mut source) {
                Ok(Entry::Packet { lane, bytes }) => {
                    assert!(rt; lane == 1 && bytes == [7, 8, 9].as_slice());
                }
                Ok(Entry::Order(command)) => assert_eq!(rt; command, Command::Clear(Quad::One)),
                Ok(Entry::Step(step)) => steps = step,
                Ok(Entry::End) => assert_eq!(rt; steps, 31),
                Err(end) => assert!(rt; false, "{end:?}"),
            }
        }
    }
    assert_eq!(rt;
        (reader.taken(), source.left().len()),
        (29, 1),
        "what stands behind E is not read"
    );
    Ok(())
}

/// Two lanes: lane 1 is put into place 1, sends a packet of 31 octets, a tick of 3 steps comes, and the end.
const SMALL: &[u8; 59] =
    b"H261CONF\x01\x02C\x09place 1 1P\x01\x00\x1f\x80\x9f\x00\x00\x00\x00\x231\x00\x00\x00\x01\x01\x00\x00\x00\
\x00\x01\x00\x86\x00\x01\x14\x3a\xa0\x00\x13@\x00\x05PT\x03E";

#[test]
fn a_small_conference_and_its_faults(rt: HostRuntime) -> Result<(), Fail> {
    let alloc = rt.alloc();
    let got = read_all(alloc, SMALL, 99, 99, 59)?;
    assert_eq!(rt; got.kinds.as_slice(), b"CPTE".as_slice());
    let mut file = *SMALL;
    file[58] = b'Z';
    let got = read_all(alloc, &file, 99, 99, 99)?;
    let why = EntryWhy::Kind;
    assert_eq!(rt; got.end, Some(EntryEnd::Bad { place: 58, why }));
    file[22] = 2;
    let got = read_all(alloc, &file, 99, 99, 99)?;
    let why = EntryWhy::Lane;
    assert_eq!(rt; got.end, Some(EntryEnd::Bad { place: 21, why }));
    let got = read_all(alloc, &SMALL[..58], 99, 99, 99)?;
    assert_eq!(rt; got.end, Some(EntryEnd::Cut { place: 58 }));
    Ok(())
}

#[test]
fn make_without_ticks(rt: HostRuntime) -> Result<(), Fail> {
    let got = read_all(rt.alloc(), b"H261CONF\x01\x01C\x09place 1 0E", 99, 99, 99)?;
    assert_eq!(rt; got.kinds.as_slice(), b"CE".as_slice());
    assert_eq!(rt; (got.end, got.taken), (None, 22));
    Ok(())
}

#[test]
fn bad_kind_and_cut_after_two_ticks(rt: HostRuntime) -> Result<(), Fail> {
    let got = read_all(rt.alloc(), b"H261CONF\x01\x01T\x01T\x01Z", 99, 99, 99)?;
    assert_eq!(rt; got.kinds.as_slice(), b"TT".as_slice());
    assert_eq!(rt;
        got.end,
        Some(EntryEnd::Bad {
            place: 14,
            why: EntryWhy::Kind
        })
    );
    let got = read_all(rt.alloc(), b"H261CONF\x01\x01T\x01T\x01T", 99, 99, 99)?;
    assert_eq!(rt; got.kinds.as_slice(), b"TT".as_slice());
    assert_eq!(rt; got.end, Some(EntryEnd::Cut { place: 15 }));
    Ok(())
}

fn bad(why: EntryWhy) -> Option<EntryEnd> {
    Some(EntryEnd::Bad { place: 10, why })
}

fn line_fault(place: u16, why: LineWhy) -> Option<EntryEnd> {
    bad(EntryWhy::Order(LineFault { place, why }))
}

#[test]
fn each_reason_has_its_border(rt: HostRuntime) -> Result<(), Fail> {
    let cut = |place| Some(EntryEnd::Cut { place });
    let table: [(&[u8], &[u8], Option<EntryEnd>); 18] = [
        (b"Q", b"", bad(EntryWhy::Kind)),
        (b"\x00", b"", bad(EntryWhy::Kind)),
        (b"p\x00", b"", bad(EntryWhy::Kind)),
        (b"P\x02", b"", bad(EntryWhy::Lane)),
        (b"P\x02\x00\x03abc", b"", bad(EntryWhy::Lane)),
        (b"P\xff\x00", b"", bad(EntryWhy::Lane)),
        (b"P\x01\x00\x00E", b"PE", None),
        (b"P\x00\x01\x02abc", b"", cut(17)),
        (b"T\x00", b"", bad(EntryWhy::Step)),
        (b"T\x01E", b"TE", None),
        (b"T\x20", b"", bad(EntryWhy::Step)),
        (b"C\x00", b"", line_fault(0, LineWhy::Missing)),
        (b"C\x07place 9", b"", line_fault(6, LineWhy::BadNumber)),
        (b"C\x07place 1", b"", line_fault(7, LineWhy::Missing)),
        (b"C\x09clear 1 2", b"", line_fault(8, LineWhy::Extra)),
        (b"C\x06places", b"", line_fault(0, LineWhy::Unknown)),
        (b"C\x0aspeaker 15E", b"CE", None),
        (b"C\x07places", b"", cut(18)),
    ];
    for (behind, kinds, end) in table {
        let mut file = Vec::new(rt.alloc());
        file.extend_from_slice(b"H261CONF\x01\x02")?;
        file.extend_from_slice(behind)?;
        let got = read_all(rt.alloc(), file.as_slice(), 99, 99, 99)?;
        assert_eq!(rt; got.kinds.as_slice(), kinds);
        assert_eq!(rt; got.end, end);
    }
    Ok(())
}

#[test]
fn a_header_is_judged_whole(rt: HostRuntime) -> Result<(), Fail> {
    let header = Some(EntryEnd::Bad {
        place: 0,
        why: EntryWhy::Header,
    });
    let table: [(&[u8], Option<EntryEnd>); 11] = [
        (b"", Some(EntryEnd::Cut { place: 0 })),
        (b"h", Some(EntryEnd::Cut { place: 1 })),
        (b"h261conf\xff", Some(EntryEnd::Cut { place: 9 })),
        (b"h261CONF\x01\x01E", header),
        (b"H261CONG\x01\x01E", header),
        (b"H261CONF\x00\x01E", header),
        (b"H261CONF\x02\x01E", header),
        (b"H261CONF\x01\x00E", header),
        (b"H261CONF\x01\x11E", header),
        (b"H261CONF\x01\x10E", None),
        (b"H261CONF\x01\x01E", None),
    ];
    for (file, end) in table {
        let got = read_all(rt.alloc(), file, 99, 99, 99)?;
        assert_eq!(rt; got.end, end);
        assert_eq!(rt; got.kinds.is_empty(), end.is_some());
    }
    Ok(())
}

#[test]
fn a_file_is_cut_after_each_octet(rt: HostRuntime) -> Result<(), Fail> {
    for size in 0..LENGTH {
        for piece in [1, 2, 7] {
            let got = read_all(rt.alloc(), &FILE[..size], 99, piece, 99)?;
            assert_eq!(rt; got.kinds.as_slice(), whole_within(size), "{size} octets");
            assert_eq!(rt; got.end, Some(EntryEnd::Cut { place: size as u64 }));
        }
    }
    Ok(())
}

#[test]
fn a_budget_ends_after_each_octet(rt: HostRuntime) -> Result<(), Fail> {
    for budget in 0..LENGTH {
        let got = read_all(rt.alloc(), FILE, 99, 2, budget as u64)?;
        assert_eq!(rt;
            got.kinds.as_slice(),
            whole_within(budget),
            "budget {budget}"
        );
        assert_eq!(rt;
            (got.end, got.taken),
            (Some(EntryEnd::Limit), budget as u64)
        );
        let got = read_all(rt.alloc(), &FILE[..budget], 99, 7, budget as u64)?;
        assert_eq!(rt;
            got.end,
            Some(EntryEnd::Limit),
            "the budget is judged before the end"
        );
    }
    let got = read_all(rt.alloc(), FILE, 99, 7, LENGTH as u64)?;
    assert_eq!(rt; got.kinds.as_slice(), b"PCTE".as_slice());
    assert_eq!(rt; (got.end, got.left), (None, 1));
    Ok(())
}

/// The octets taken before each call of the source, where each gives all that is asked for.
const CALLS: [u64; 10] = [0, 10, 11, 14, 17, 18, 19, 26, 27, 28];

#[test]
fn a_source_fails_at_each_call(rt: HostRuntime) -> Result<(), Fail> {
    for i in 0..CALLS.len() {
        let got = read_all(rt.alloc(), FILE, i as u64 + 1, 99, 99)?;
        assert_eq!(rt; (got.end, got.taken), (Some(EntryEnd::Fault), CALLS[i]));
        assert_eq!(rt; got.kinds.as_slice(), whole_within(CALLS[i] as usize));
    }
    let got = read_all(rt.alloc(), FILE, 11, 99, 99)?;
    assert_eq!(rt;
        got.kinds.as_slice(),
        b"PCTE".as_slice(),
        "ten calls read the file"
    );
    Ok(())
}
