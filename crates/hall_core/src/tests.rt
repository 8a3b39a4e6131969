//! What a hall answers, takes and waits for, by what came. What is expected is counted by hand from the rule of takes.

ghost use Rattle.std.specs.Prelude.{◌≡◌, IfOk};
ghost use Rattle.h261_pic.specs.Coded.{IsFinished};
ghost use Rattle.pel_model.specs.declared.Format.TheVariants.{Qcif};
ghost use Rattle.hall_core.specs.Hall.{lanes_of};
ghost use Rattle.hall_core.specs.Stands.{IsQcifHand};

use crate::{Coded, Command, Hall, Hand, Quad, Reply};
use h261_pic::parse;
use pel_bits::Bits;
use pel_model::Format;
use std::alloc::{AllocError, Global};
use std::process::Abort;
use std::test::Fail;

/// A picture: all macroblocks Intra, all but the last, or none sent.
#[derive(Clone, Copy)]
enum Sample {
    Refresh,
    Almost,
    Empty,
}

use Sample::{Almost, Empty, Refresh};

/// A call of a hall of two lanes, and what it has to answer.
#[derive(Clone, Copy)]
enum Call {
    /// Posts so many pictures of a lane.
    Posts(u8, Sample, u32),
    Gap(u8),
    Order(Command, Reply),
    /// The lanes and serials that are taken in places 1 and 2, and the lanes that are waited for.
    Tick(Option<(u8, u64)>, Option<(u8, u64)>, u16),
}

use Call::{Gap, Order, Posts, Tick};

/// Digits put together as bits. What is no digit is passed over.
#[derive(Drop)]
struct Sent {
    octets: Vec<u8>,
    len: u32,
}

impl Sent {
    fn put(&mut self, digits: &str) -> Result<(), AllocError> {
        for digit in digits.bytes().filter(|digit| matches!(digit, b'0' | b'1')) {
            if self.len % 8 == 0 {
                self.octets.push(0)?;
            }
            if let Some(last) = self.octets.last_mut() {
                *last |= (digit - b'0') << (7 - self.len % 8);
            }
            self.len = self.len.wrapping_add(1);
        }
        Ok(())
    }

    // A group with Intra macroblocks of INTRADC 255, and one more that is not Intra.
    fn put_group(&mut self, header: &str, intra: u32, others: u32) -> Result<(), AllocError> {
        self.put(header)?;
        for _ in 0..intra {
            self.put("1 0001 1111111110 1111111110 1111111110 1111111110 1111111110 1111111110")?;
        }
        for _ in 0..others {
            self.put("1 1 1010 10 10")?;
        }
        Ok(())
    }

    fn bits(&self) -> Bits<'_> {
        let most = 8 * self.octets.len().min(100_000) as u32;
        Bits::new(&self.octets, 0, self.len.min(most))
    }
}

// A finished QCIF picture.
fn picture(alloc: Global, sample: Sample) -> Result<Box<Coded>, Fail>
    ensures format { IfOk result (λ picture. picture.value.format ≡ Qcif) }
    ensures finished { IfOk result (λ picture. IsFinished picture.value) }
{
    let mut sent = Sent {
        octets: Vec::new(alloc),
        len: 0,
    };
    let (intra, last, others) = match sample {
        Refresh => (33, 33, 0),
        Almost => (33, 32, 1),
        Empty => (0, 0, 0),
    };
    sent.put("00000000000000010000 00001 000011 0")?;
    sent.put_group("0000000000000001 0001 01000 0", intra, 0)?;
    sent.put_group("0000000000000001 0011 01000 0", intra, 0)?;
    sent.put_group("0000000000000001 0101 01000 0", last, others)?;
    let mut coded = Coded::reserve(alloc, Format::Qcif)?;
    parse(sent.bits(), Format::Qcif, &mut coded)?;
    let Ok(boxed) = Box::new(alloc, coded) else {
        return Err(AllocError.into());
    };
    Ok(boxed)
}

// Posts pictures, which have to be taken in, and drops the boxes that are given for them.
fn post(
    rt: &impl Abort,
    alloc: Global,
    hall: &mut Hall,
    lane: u8,
    sample: Sample,
    times: u32,
) -> Result<(), Fail>
    requires { lanes_of hall.old ≡ 2 }
    ensures { lanes_of hall.new ≡ 2 }
{
    assert!(rt; lane < 2);
    for _ in 0..times {
        let given = hall.post(lane, picture(alloc, sample)?);
        assert!(rt; given.is_ok(), "post in lane {lane}");
    }
    Ok(())
}

fn tick(
    rt: &impl Abort,
    hall: &mut Hall,
    hand: &mut Hand,
    one: Option<(u8, u64)>,
    two: Option<(u8, u64)>,
    waiting: u16,
)
    requires lanes { lanes_of hall.old ≡ 2 }
    requires hand { IsQcifHand hand.old }
    ensures lanes { lanes_of hall.new ≡ 2 }
    ensures hand { IsQcifHand hand.new }
{
    match hall.tick(3, hand) {
        Ok(note) => {
            assert_eq!(rt; note.taken_one.map(|take| (take.lane, take.serial)), one);
            assert_eq!(rt; note.taken_two.map(|take| (take.lane, take.serial)), two);
            assert_eq!(rt; note.waiting, waiting);
        }
        Err(_ended) => assert!(rt; false, "no tick"),
    }
}

fn make(
    rt: &impl Abort,
    alloc: Global,
    hall: &mut Hall,
    hand: &mut Hand,
    call: Call,
) -> Result<(), Fail>
    requires lanes { lanes_of hall.old ≡ 2 }
    requires hand { IsQcifHand hand.old }
    ensures lanes { lanes_of hall.new ≡ 2 }
    ensures hand { IsQcifHand hand.new }
{
    match call {
        Posts(lane, sample, times) => return post(rt, alloc, hall, lane, sample, times),
        Gap(lane) => {
            assert!(rt; lane < 2);
            let answer = hall.gap(lane);
            assert!(rt; answer.is_ok(), "gap in lane {lane}");
            return Ok(());
        }
        Order(command, reply) => {
            let answer = hall.command(command);
            assert!(rt; answer.is_ok_and(|r| r == reply), "{command:?}");
            return Ok(());
        }
        Tick(one, two, waiting) => {
            tick(rt, hall, hand, one, two, waiting);
            return Ok(());
        }
    }
}

fn follow(rt: &impl Abort, alloc: Global, calls: &[Call]) -> Result<(), Fail> {
    let mut hall = Hall::reserve(alloc, 2, 100)?;
    let mut hand = Hand::reserve(alloc)?;
    for call in calls {
        make(rt, alloc, &mut hall, &mut hand, *call)?;
    }
    Ok(())
}

const PLACE_1: Call = Order(Command::Place(Quad::One, 0), Reply::Done);

const PLACE_2: Call = Order(Command::Place(Quad::Two, 1), Reply::Done);

const SWAP: Call = Order(Command::Swap(Quad::One, Quad::Two), Reply::Done);

#[test]
fn ninety_eight_intra(rt: HostRuntime) -> Result<(), Fail> {
    follow(
        &rt,
        rt.alloc(),
        &[
            PLACE_1,
            Posts(0, Almost, 1),
            Tick(None, None, 1),
            Posts(0, Refresh, 1),
            Tick(Some((0, 2)), None, 0),
        ],
    )
}

// All that comes is a gap, as a picture over the limit of its bits leaves one.
#[test]
fn a_gap_alone_is_waited_for(rt: HostRuntime) -> Result<(), Fail> {
    follow(&rt, rt.alloc(), &[PLACE_1, Gap(0), Tick(None, None, 1)])
}

#[test]
fn pushed_out_then_waiting(rt: HostRuntime) -> Result<(), Fail> {
    follow(
        &rt,
        rt.alloc(),
        &[
            PLACE_1,
            Posts(0, Refresh, 1),
            Tick(Some((0, 1)), None, 0),
            Posts(0, Empty, 9),
            Tick(None, None, 1),
            Posts(0, Refresh, 1),
            Tick(Some((0, 11)), None, 0),
        ],
    )
}

#[test]
fn refresh_after_overflow(rt: HostRuntime) -> Result<(), Fail> {
    follow(
        &rt,
        rt.alloc(),
        &[
            Posts(0, Empty, 8),
            Posts(0, Refresh, 1),
            PLACE_1,
            Tick(Some((0, 9)), None, 0),
            Gap(0),
            Tick(None, None, 1),
        ],
    )
}

#[test]
fn swapped_twice(rt: HostRuntime) -> Result<(), Fail> {
    follow(
        &rt,
        rt.alloc(),
        &[
            PLACE_1,
            PLACE_2,
            Posts(0, Refresh, 1),
            Posts(1, Refresh, 1),
            Tick(Some((0, 1)), Some((1, 1)), 0),
            Posts(0, Empty, 1),
            Posts(1, Empty, 1),
            SWAP,
            SWAP,
            Tick(None, None, 3),
            Posts(1, Refresh, 1),
            Tick(None, Some((1, 3)), 1),
        ],
    )
}

#[test]
fn speaker_with_all_pinned(rt: HostRuntime) -> Result<(), Fail> {
    follow(
        &rt,
        rt.alloc(),
        &[
            PLACE_1,
            Order(Command::Pin(Quad::One), Reply::Done),
            Order(Command::Pin(Quad::Two), Reply::Done),
            Order(Command::Pin(Quad::Three), Reply::Done),
            Order(Command::Pin(Quad::Four), Reply::Done),
            Posts(0, Refresh, 1),
            Order(Command::Speaker(1), Reply::AllPinned),
            Order(Command::Speaker(0), Reply::Done),
            Tick(Some((0, 1)), None, 0),
        ],
    )
}

#[test]
fn hall_limit_and_turns(rt: HostRuntime) -> Result<(), Fail> {
    let mut hall = Hall::reserve(rt.alloc(), 1, 3)?;
    assert!(rt; hall.gap(0).is_ok());
    assert!(rt;
        hall.command(Command::Clear(Quad::One))
            .is_ok_and(|r| r == Reply::SamePlace)
    );
    assert!(rt; hall.gap(0).is_ok());
    assert!(rt; hall.gap(0).is_err());
    assert!(rt; hall.command(Command::Pin(Quad::One)).is_err());
    assert!(rt; hall.end().is_err());
    let mut ended = Hall::reserve(rt.alloc(), 1, 3)?;
    assert!(rt; ended.end().is_ok());
    assert!(rt; ended.end().is_err());
    match ended.post(0, picture(rt.alloc(), Refresh)?) {
        Ok(_given) => assert!(rt; false, "a post behind the end"),
        Err(back) => assert!(rt; back.0.is_refresh()),
    }
    Ok(())
}
