//! What one lane gives, by what came and what was taken.

use crate::Lane;
use std::alloc::AllocError;
use std::process::Abort;

/// A call of a lane of numbers, and what it has to answer.
#[derive(Clone, Copy)]
enum Call {
    /// Posts an item, which may be a refresh, and gives another.
    Post(u32, bool, u32),
    Gap,
    /// Takes behind a last serial: the serial that is taken, and the slot then.
    Take(Option<u64>, Option<u64>, u32),
    /// A serial, and whether it is held.
    Holds(u64, bool),
}

fn follow(rt: &impl Abort, lane: &mut Lane<u32>, calls: &[Call]) {
    let mut slot = 0;
    for call in calls {
        match call {
            Call::Post(item, refresh, given) => {
                assert!(rt; lane.count() < 1000);
                assert_eq!(rt; lane.post(*item, *refresh), *given, "post of {item}");
            }
            Call::Gap => {
                assert!(rt; lane.count() < 1000);
                lane.gap();
            }
            Call::Take(last, serial, left) => {
                assert_eq!(rt;
                    lane.take(*last, &mut slot),
                    *serial,
                    "take behind {last:?}"
                );
                assert_eq!(rt; slot, *left, "slot behind {last:?}");
            }
            Call::Holds(serial, held) => assert_eq!(rt;
                lane.holds(*serial),
                *held,
                "holds {serial}"
            ),
        }
    }
}

/// A lane whose spares are 901 to 908.
fn lane(rt: &HostRuntime) -> Result<Lane<u32>, AllocError> {
    let boxes = vec![in rt.alloc(); 901, 902, 903, 904, 905, 906, 907, 908]?;
    match Lane::reserve(rt.alloc(), boxes) {
        Ok(lane) => Ok(lane),
        Err(_no_memory) => Err(AllocError),
    }
}

#[test]
fn pushed_out_then_waiting(rt: HostRuntime) -> Result<(), AllocError> {
    let mut lane = lane(&rt)?;
    let calls = [
        Call::Post(1, true, 901),
        Call::Take(None, Some(1), 1),
        Call::Post(2, false, 902),
        Call::Post(3, false, 903),
        Call::Post(4, false, 904),
        Call::Post(5, false, 905),
        Call::Post(6, false, 906),
        Call::Post(7, false, 907),
        Call::Post(8, false, 908),
        Call::Post(9, false, 0),
        Call::Holds(2, true),
        Call::Post(10, false, 2),
        Call::Holds(2, false),
        Call::Holds(3, true),
        Call::Take(Some(1), None, 1),
        Call::Holds(10, false),
        Call::Post(11, true, 3),
        Call::Take(Some(1), Some(11), 11),
        Call::Holds(12, false),
    ];
    follow(&rt, &mut lane, &calls);
    assert_eq!(rt; lane.count(), 11);
    Ok(())
}

#[test]
fn refresh_after_overflow(rt: HostRuntime) -> Result<(), AllocError> {
    let mut lane = lane(&rt)?;
    let calls = [
        Call::Post(1, false, 901),
        Call::Post(2, false, 902),
        Call::Post(3, false, 903),
        Call::Post(4, false, 904),
        Call::Post(5, false, 905),
        Call::Post(6, false, 906),
        Call::Post(7, false, 907),
        Call::Post(8, false, 908),
        Call::Post(9, true, 1),
        Call::Take(None, Some(9), 9),
        Call::Post(10, false, 2),
        Call::Take(Some(9), Some(10), 10),
    ];
    follow(&rt, &mut lane, &calls);
    Ok(())
}

#[test]
fn gaps_between(rt: HostRuntime) -> Result<(), AllocError> {
    let mut lane = lane(&rt)?;
    let calls = [
        Call::Take(None, None, 0),
        Call::Gap,
        Call::Post(2, false, 901),
        Call::Take(None, None, 0),
        Call::Holds(2, false),
        Call::Post(3, true, 902),
        Call::Gap,
        Call::Post(5, false, 903),
        Call::Take(None, Some(3), 3),
        Call::Holds(5, true),
        Call::Take(Some(3), None, 3),
        Call::Post(6, false, 904),
        Call::Post(7, false, 905),
        Call::Take(Some(5), Some(6), 6),
        Call::Take(Some(6), Some(7), 7),
    ];
    follow(&rt, &mut lane, &calls);
    assert_eq!(rt; lane.count(), 7);
    Ok(())
}
