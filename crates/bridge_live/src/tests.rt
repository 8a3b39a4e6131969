//! Workers at a hall that no one else calls, and whole conferences: what they made of their sources, counted by hand.
ghost use Rattle.std.specs.Prelude.{◌≤◌, ◌^◌};
ghost use Rattle.bridge_live.specs.Mixing.{most_turns};

use super::*;
use crate::lane::MOST_TAKEN;
use cif_pack::Settings;
use h261_pic::Hand;
use hall_core::Hall;
use hall_lock::Shared;
use io_edge::{MemSink, MemSource, MemTicker};
use pel_bits::NoMemory;
use pel_model::Format;
use rtp_h261::UnitReader;
use std::alloc::Global;
use std::process::Abort;
use std::sync::Wait;
use std::test::Fail;
use std::thread::Threads;

/// Two packets in their frames, the first with number 0 and the second with number 2: each is a QCIF picture of one header, whose
/// groups are all left out.
const TWO_PACKETS: [u8; 44] = [
    0, 20, 0x80, 0x9F, 0, 0, 0, 0, 0, 0, 0, 0, 0, 1, 0, 0, 0, 0, 0, 1, 0, 6, //
    0, 20, 0x80, 0x9F, 0, 2, 0, 0, 0, 9, 0, 0, 0, 1, 0, 0, 0, 0, 0, 1, 0, 6,
];

/// Lane 1 of two, over so many octets of the two packets, at a hall of so many steps and a lock of so many turns.
fn run(
    rt: &impl Wait,
    alloc: Global,
    octets: usize,
    fails: u64,
    limit: u64,
    turns: u64,
) -> Result<(LaneStop, Counts), Fail>
    requires { (1 ≤ limit) × (limit ≤ 2 ^ 45) × (1 ≤ turns) × (turns ≤ 2 ^ 62) }
{
    let (lock, seat) = Shared::reserve(alloc, Hall::reserve(alloc, 2, limit)?, turns)?;
    let mut lane = Lane {
        number: 1,
        seat,
        counts: Counts { posts: 0, gaps: 0 },
    };
    let mut bytes = Vec::new(alloc);
    bytes.extend_from_slice(&TWO_PACKETS)?;
    bytes.truncate(octets);
    let mut source = MemSource::new(bytes, vec![in alloc; fails]?, 7);
    let mut reader = UnitReader::reserve(alloc, Format::Qcif, MOST_TAKEN)?;
    let item = QcifBox::reserve(alloc)?;
    let stop = run_lane(rt, &lock, &mut source, &mut reader, &mut lane, item);
    Ok((stop, lane.counts))
}

#[test]
fn what_a_lane_makes(rt: HostRuntime) -> Result<(), Fail> {
    for (octets, fails, limit, turns, stop, posts, gaps) in [
        // the loss before the second picture is a gap
        (44, 0, 99, 99, LaneStop::Whole, 2, 1),
        (0, 0, 99, 99, LaneStop::Whole, 0, 0),
        // a frame that is cut is one more
        (30, 0, 99, 99, LaneStop::Cut, 1, 1),
        // so is a source that fails
        (44, 1, 99, 99, LaneStop::Fault, 0, 1),
        // the second call is given back
        (44, 0, 1, 99, LaneStop::Ended, 1, 0),
        (44, 0, 99, 2, LaneStop::Over, 1, 1),
        // the gap of the end is given back
        (30, 0, 1, 99, LaneStop::Ended, 1, 0),
    ] {
        let ran = run(&rt, rt.alloc(), octets, fails, limit, turns)?;
        assert_eq!(rt; ran, (stop, Counts { posts, gaps }));
    }
    Ok(())
}

#[test]
fn what_the_chair_makes(rt: HostRuntime) -> Result<(), Fail> {
    let alloc = rt.alloc();
    for (lines, turns, stop, commands, refused, bad) in [
        // done; passed over; faulty; refused, with no LF behind it
        (
            b"place 1 0\n \t\nplace 1\nplace 1 0".as_slice(),
            9,
            ChairStop::Whole,
            2,
            1,
            1,
        ),
        (b"pin 1\n".as_slice(), 9, ChairStop::Whole, 1, 0, 0),
        // the second command is given back
        (b"pin 1\npin 2\nx\n".as_slice(), 1, ChairStop::Over, 1, 0, 0),
    ] {
        let (lock, seat) = Shared::reserve(alloc, Hall::reserve(alloc, 2, 99)?, turns)?;
        let counts = ChairCounts {
            commands: 0,
            refused: 0,
            bad: 0,
        };
        let mut chair = Chair { seat, counts };
        let mut bytes = Vec::new(alloc);
        bytes.extend_from_slice(lines)?;
        let mut source = MemSource::new(bytes, Vec::new(alloc), 4);
        let ran = run_chair(&rt, &lock, &mut source, &mut chair);
        assert_eq!(rt; ran, stop);
        assert_eq!(rt;
            chair.counts,
            ChairCounts {
                commands,
                refused,
                bad
            }
        );
    }
    Ok(())
}

/// What a mixer made over two steps of 1 and 2 picture times, at a hall of one lane that holds nothing: where the ticker and the
/// sink fail, and for so many steps and turns.
fn mix(
    rt: &impl Wait,
    alloc: Global,
    ticker_fails: u64,
    sink_fails: u64,
    limit: u64,
    turns: u64,
) -> Result<(MixStop, MixCounts, u64), Fail>
    requires { (1 ≤ limit) × (limit ≤ 2 ^ 45) × (1 ≤ turns) × (turns ≤ most_turns) }
{
    let (lock, seat) = Shared::reserve(alloc, Hall::reserve(alloc, 1, limit)?, turns)?;
    let settings = Settings {
        mtu: 1400,
        ssrc: 7,
        seq: 65_535,
        stamp: 0,
    };
    let mut mixer = Mixer {
        seat,
        writer: PictureWriter::reserve(alloc, settings)?,
        counts: MixCounts {
            ticks: 0,
            taken: 0,
            packets: 0,
            octets: 0,
        },
    };
    let mut ticker = MemTicker::new(vec![in alloc; 1, 2]?, vec![in alloc; ticker_fails]?);
    let mut sink = MemSink::reserve(alloc, 200, vec![in alloc; sink_fails]?, 200)?;
    let hand = Hand::reserve(alloc)?;
    let stop = run_mixer(rt, &lock, &mut ticker, &mut sink, &mut mixer, hand);
    Ok((stop, mixer.counts, sink.bytes().len() as u64))
}

/// A picture of twelve groups without a macroblock has 32 bits and 12 times 26: 43 octets. It goes in one packet, with 16 octets of
/// headers and 2 of the frame's length: 61.
#[test]
fn what_a_mixer_writes(rt: HostRuntime) -> Result<(), Fail> {
    for (ticker_fails, sink_fails, limit, turns, stop, ticks, packets, octets) in [
        (0, 0, 99, 99, MixStop::Whole, 2, 2, 122),
        // the ticker fails, behind one step
        (2, 0, 99, 99, MixStop::Ticker, 1, 1, 61),
        // the sink fails at the second picture, whose tick was made
        (0, 2, 99, 99, MixStop::Sink, 2, 1, 61),
        // the second tick is given back, or the end
        (0, 0, 99, 1, MixStop::Over, 1, 1, 61),
        (0, 0, 99, 2, MixStop::Over, 2, 2, 122),
        (0, 0, 1, 99, MixStop::Whole, 1, 1, 61),
        // the end is given back too, but the ticker or the sink failed first
        (2, 0, 99, 1, MixStop::Ticker, 1, 1, 61),
        (0, 1, 99, 1, MixStop::Sink, 1, 0, 0),
    ] {
        let ran = mix(&rt, rt.alloc(), ticker_fails, sink_fails, limit, turns)?;
        let counts = MixCounts {
            ticks,
            taken: 0,
            packets,
            octets,
        };
        assert_eq!(rt; ran, (stop, counts, octets));
    }
    Ok(())
}

/// Two lanes, of which the second is given nothing, a chair of one line, which shows no lane, and two steps of a ticker. So
/// whenever the calls come, each tick has the same picture.
fn live(
    rt: &(impl Threads + Wait + Sync),
    alloc: Global,
    octets: usize,
    ticker_fails: u64,
    sink_fails: u64,
    turns: u64,
) -> Result<ServeEnd<MemSource, MemTicker, MemSink>, Fail>
    requires { (1 ≤ turns) × (turns ≤ 2 ^ 45) }
{
    let mut bytes = Vec::new(alloc);
    bytes.extend_from_slice(&TWO_PACKETS)?;
    bytes.truncate(octets);
    let mut line = Vec::new(alloc);
    line.extend_from_slice(b"pin 1\n")?;
    let mut lanes = Vec::new(alloc);
    lanes.push(MemSource::new(bytes, Vec::new(alloc), 7))?;
    lanes.push(MemSource::new(Vec::new(alloc), Vec::new(alloc), 7))?;
    let chair = MemSource::new(line, Vec::new(alloc), 4);
    let ticker = MemTicker::new(vec![in alloc; 1, 2]?, vec![in alloc; ticker_fails]?);
    let sink = MemSink::reserve(alloc, 200, vec![in alloc; sink_fails]?, 200)?;
    let set = Settings {
        mtu: 1000,
        seq: 7,
        stamp: 0,
        ssrc: 1,
    };
    match serve(rt, alloc, lanes, chair, ticker, sink, set, turns) {
        Ok(end) => Ok(end),
        Err(_back) => Err(NoMemory)?,
    }
}

/// The picture of a tick that takes nothing is one packet of 61 octets, as above.
#[test]
fn what_a_live_conference_writes(rt: HostRuntime) -> Result<(), Fail> {
    for (octets, ticker_fails, sink_fails, stop, ticks, packets, written) in [
        (44, 0, 0, MixStop::Whole, 2, 2, 122),
        // a frame of the first lane is cut
        (30, 0, 0, MixStop::Whole, 2, 2, 122),
        // the ticker fails, behind one step
        (44, 2, 0, MixStop::Ticker, 1, 1, 61),
        // the sink fails at the second picture, whose tick was made
        (44, 0, 2, MixStop::Sink, 2, 1, 61),
    ] {
        let end = live(&rt, rt.alloc(), octets, ticker_fails, sink_fails, 99)?;
        assert_eq!(rt; end.stop, stop);
        assert_eq!(rt; end.tally.ticks, ticks);
        assert_eq!(rt; end.tally.taken, 0);
        assert_eq!(rt; end.tally.packets, packets);
        assert_eq!(rt; end.tally.octets, written);
        assert_eq!(rt; end.sink.bytes().len() as u64, written);
        // the second lane was given nothing
        assert_eq!(rt; end.lanes.len(), 2);
        assert_eq!(rt; end.lanes[1].stop, LaneStop::Whole);
        assert_eq!(rt; end.lanes[1].counts, Counts { posts: 0, gaps: 0 });
        // what the first lane posted, and when it was cut off, is up to the threads
        let first = &end.lanes[0];
        let whole = first.stop != LaneStop::Ended;
        let all = if octets == 44 {
            LaneStop::Whole
        } else {
            LaneStop::Cut
        };
        let posts = if octets == 44 { 2 } else { 1 };
        assert!(rt; !whole || first.stop == all);
        assert!(rt; !whole || first.counts == Counts { posts, gaps: 1 });
        assert_eq!(rt; end.tally.pictures, first.counts.posts);
        assert_eq!(rt; end.tally.gaps, first.counts.gaps);
        assert_eq!(rt; end.tally.commands, end.chair.counts.commands);
    }
    Ok(())
}

/// Three calls of the first lane, one of the chair and three of the mixer are seven at most. The end is the third of the mixer, so
/// two turns are too few, and from three to six it is up to the threads.
#[test]
fn turns_from_one_to_ten(rt: HostRuntime) -> Result<(), Fail> {
    for turns in 1..11 {
        let end = live(&rt, rt.alloc(), 44, 0, 0, turns)?;
        let over = end.stop == MixStop::Over;
        assert!(rt; over || end.stop == MixStop::Whole);
        assert!(rt; over || turns > 2);
        assert!(rt; !over || turns < 7);
        // all turns were made where one was over, and all ticks where none was
        assert!(rt; !over || end.hall.turns == turns);
        assert!(rt; end.hall.turns <= 7);
        assert!(rt; over || end.tally.ticks == 2);
        assert_eq!(rt; end.tally.packets, end.tally.ticks);
        assert_eq!(rt; end.sink.bytes().len() as u64, end.tally.octets);
    }
    Ok(())
}

/// The sink fails at the second picture, if its tick is made: with six turns it is.
#[test]
fn turns_where_the_sink_fails(rt: HostRuntime) -> Result<(), Fail> {
    for turns in 1..11 {
        let end = live(&rt, rt.alloc(), 44, 0, 2, turns)?;
        let over = end.stop == MixStop::Over;
        assert!(rt; over || end.stop == MixStop::Sink);
        assert!(rt; over || turns > 1);
        assert!(rt; !over || turns < 6);
        assert!(rt; over || end.tally.ticks == 2);
        assert!(rt; over || end.tally.packets == 1);
        assert!(rt; !over || end.tally.packets == end.tally.ticks);
        assert_eq!(rt; end.sink.bytes().len() as u64, end.tally.octets);
    }
    Ok(())
}

/// The ticker fails behind the first step, if its tick is made: with five turns it is.
#[test]
fn turns_where_the_ticker_fails(rt: HostRuntime) -> Result<(), Fail> {
    for turns in 1..11 {
        let end = live(&rt, rt.alloc(), 44, 2, 0, turns)?;
        let over = end.stop == MixStop::Over;
        assert!(rt; over || end.stop == MixStop::Ticker);
        assert!(rt; !over || turns < 5);
        let ticks = if over { 0 } else { 1 };
        assert_eq!(rt; end.tally.ticks, ticks);
        assert_eq!(rt; end.tally.packets, ticks);
        assert_eq!(rt; end.sink.bytes().len() as u64, end.tally.octets);
    }
    Ok(())
}
