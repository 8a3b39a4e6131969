//! The hall as a machine, and under a lock: what it replies, and what comes back behind its end, at its limit and behind the
//! lock's last turn, counted by hand.

use crate::{Command, Hall, HallCall, HallReply, Hand, Quad, Reply, TickNote};
use hall_lock::{Machine, Over, Shared};
use std::process::Abort;
use std::test::Fail;

#[test]
fn calls_behind_the_end_come_back(rt: HostRuntime) -> Result<(), Fail> {
    let mut hall = Hall::reserve(rt.alloc(), 2, 10)?;
    let hand = Hand::reserve(rt.alloc())?;
    let late = Hand::reserve(rt.alloc())?;
    assert!(rt; matches!(hall.step(HallCall::Gap { lane: 1 }), HallReply::Counted));
    assert!(rt;
        matches!(
            hall.step(HallCall::Order(Command::Clear(Quad::One))),
            HallReply::Ordered(Reply::SamePlace)
        )
    );
    assert!(rt;
        matches!(
            hall.step(HallCall::Tick { step: 2, hand }),
            HallReply::Ticked {
                note: TickNote {
                    step: 2,
                    total: 2,
                    taken_one: None,
                    waiting: 0,
                    ..
                },
                ..
            }
        )
    );
    assert!(rt; matches!(hall.step(HallCall::Finish), HallReply::Finished));
    assert!(rt;
        matches!(
            hall.step(HallCall::Tick {
                step: 3,
                hand: late
            }),
            HallReply::Ended(HallCall::Tick { step: 3, .. })
        )
    );
    assert!(rt;
        matches!(
            hall.step(HallCall::Finish),
            HallReply::Ended(HallCall::Finish)
        )
    );
    Ok(())
}

#[test]
fn calls_at_the_limit_come_back(rt: HostRuntime) -> Result<(), Fail> {
    let mut hall = Hall::reserve(rt.alloc(), 1, 2)?;
    let hand = Hand::reserve(rt.alloc())?;
    assert!(rt; matches!(hall.step(HallCall::Gap { lane: 0 }), HallReply::Counted));
    assert!(rt;
        matches!(
            hall.step(HallCall::Tick { step: 1, hand }),
            HallReply::Ticked { .. }
        )
    );
    assert!(rt;
        matches!(
            hall.step(HallCall::Gap { lane: 0 }),
            HallReply::Ended(HallCall::Gap { lane: 0 })
        )
    );
    Ok(())
}

#[test]
fn a_lock_of_one_turn(rt: HostRuntime) -> Result<(), Fail> {
    let hall = Hall::reserve(rt.alloc(), 1, 2)?;
    let (lock, mut seat) = Shared::reserve(rt.alloc(), hall, 1)?;
    let first = lock.call(&rt, &mut seat, HallCall::Gap { lane: 0 });
    assert!(rt; matches!(first, Ok(HallReply::Counted)));
    let second = lock.call(&rt, &mut seat, HallCall::Finish);
    assert!(rt; matches!(second, Err(Over(HallCall::Finish))));
    assert_eq!(rt; lock.glance(&mut seat), 1);
    Ok(())
}
