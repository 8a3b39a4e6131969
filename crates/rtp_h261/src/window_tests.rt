//! Packets that come out of order, again or late, in windows of several widths.

use crate::Window;
use std::alloc::{AllocError, Global};
use std::test::Fail;

/// A packet without bits, with this sequence number.
fn packet(number: u16) -> [u8; 16] {
    let high = (number >> 8) as u8;
    let low = (number & 0xff) as u8;
    [0x80, 0x9f, high, low, 0, 0, 0, 1, 0, 0, 0, 1, 1, 0, 0, 0]
}

/// The sequence number of a packet.
fn number_in(packet: &[u8]) -> u16 {
    match (packet.get(2), packet.get(3)) {
        (Some(high), Some(low)) => u16::from(*high) << 8 | u16::from(*low),
        _ => 0,
    }
}

/// Offers a packet, and takes what is then due: how many packets, whose numbers are put behind the others.
fn come(window: &mut Window, packet: &[u8], given: &mut Vec<u16>) -> Result<usize, AllocError> {
    let before = given.len();
    if !window.is_due() && packet.len() <= 0xffff {
        window.offer(packet);
    }
    for _ in 0..40 {
        if let Some(packet) = window.due() {
            given.push(number_in(packet))?;
        }
    }
    Ok(given.len().wrapping_sub(before))
}

/// A width, the numbers of the packets that come, how many are due after each, and the numbers of those.
struct Row(u8, &'static [u16], &'static [usize], &'static [u16]);

const ROWS: [Row; 9] = [
    Row(2, &[0, 2, 3, 1], &[1, 0, 0, 3], &[0, 1, 2, 3]),
    Row(1, &[0, 2, 3, 1], &[1, 0, 2, 0], &[0, 2, 3]),
    Row(0, &[7, 9, 8, 9, 10], &[1, 1, 0, 0, 1], &[7, 9, 10]),
    Row(
        2,
        &[65533, 1, 65535, 0, 65534],
        &[1, 0, 0, 3, 0],
        &[65533, 65535, 0, 1],
    ),
    Row(
        3,
        &[65533, 1, 65535, 0, 65534],
        &[1, 0, 0, 0, 4],
        &[65533, 65534, 65535, 0, 1],
    ),
    Row(3, &[5, 7, 7, 5, 6], &[1, 0, 0, 0, 2], &[5, 6, 7]),
    Row(1, &[0, 32769, 32768, 2], &[1, 0, 0, 1], &[0, 2]),
    Row(2, &[4, 3, 7, 6], &[1, 0, 0, 0], &[4]),
    Row(32, &[1, 3, 5, 4, 2], &[1, 0, 0, 0, 4], &[1, 2, 3, 4, 5]),
];

#[test]
fn packets_are_due_in_order(rt: HostRuntime) -> Result<(), Fail> {
    for Row(width, numbers, counts, given) in &ROWS {
        if *width <= 32 {
            let mut window = Window::reserve(rt.alloc(), *width)?;
            let mut got = Vec::new(rt.alloc());
            let mut gave = Vec::new(rt.alloc());
            for number in *numbers {
                gave.push(come(&mut window, &packet(*number), &mut got)?)?;
            }
            assert_eq!(rt; gave.as_slice(), *counts, "width {width}");
            assert_eq!(rt; got.as_slice(), *given, "width {width}");
        }
    }
    Ok(())
}

#[test]
fn unusable_packets_change_nothing(rt: HostRuntime) -> Result<(), Fail> {
    let mut window = Window::reserve(rt.alloc(), 1)?;
    let mut got = Vec::new(rt.alloc());
    let whole = packet(9);
    for unusable in [&whole[..0], &whole[..11], &whole[..15]] {
        assert_eq!(rt; come(&mut window, unusable, &mut got)?, 0);
    }
    assert_eq!(rt; come(&mut window, &packet(7), &mut got)?, 1, "the first");
    assert_eq!(rt; come(&mut window, &packet(9), &mut got)?, 0);
    assert_eq!(rt; come(&mut window, &whole[..15], &mut got)?, 0);
    assert_eq!(rt; come(&mut window, &packet(8), &mut got)?, 2);
    assert_eq!(rt; got.as_slice(), [7, 8, 9].as_slice());
    Ok(())
}

/// A packet of 65,535 octets with this number, the last octet of which is another number.
fn longest(alloc: Global, number: u16, last: u8) -> Result<Vec<u8>, AllocError> {
    let mut octets = vec![in alloc; 0; 65535]?;
    let front = packet(number);
    for (to, from) in octets.iter_mut().zip(&front) {
        *to = *from;
    }
    if let Some(to) = octets.last_mut() {
        *to = last;
    }
    Ok(octets)
}

#[test]
fn thirty_two_of_the_longest_wait(rt: HostRuntime) -> Result<(), Fail> {
    let mut window = Window::reserve(rt.alloc(), 32)?;
    let mut got = Vec::new(rt.alloc());
    assert_eq!(rt; come(&mut window, &packet(0), &mut got)?, 1);
    for i in 0..32 {
        let octets = longest(rt.alloc(), 33 - i, 200)?;
        assert_eq!(rt; come(&mut window, octets.as_slice(), &mut got)?, 0);
    }
    if !window.is_due() {
        window.offer(&packet(34));
    }
    for number in 2..35 {
        let due = window.due();
        assert!(rt; due.is_some(), "{number}");
        if let Some(packet) = due {
            assert_eq!(rt; number_in(packet), number);
            let size = if number == 34 { 16 } else { 65535 };
            assert_eq!(rt; packet.len(), size);
            assert_eq!(rt;
                packet.last().copied(),
                Some(if number == 34 { 0 } else { 200 })
            );
        }
    }
    assert!(rt; !window.is_due() && window.due().is_none());
    Ok(())
}

#[test]
fn the_next_packet_passes(rt: HostRuntime) -> Result<(), Fail> {
    let mut window = Window::reserve(rt.alloc(), 2)?;
    let mut passed = Vec::new(rt.alloc());
    for number in [65534, 65535, 0, 2, 1, 3] {
        if !window.is_due() {
            let passes = window.passes(&packet(number));
            passed.push(passes)?;
            if !passes {
                window.offer(&packet(number));
            }
        }
        for _ in 0..40 {
            window.due();
        }
    }
    assert_eq!(rt;
        passed.as_slice(),
        [true, true, true, false, true, true].as_slice(),
        "2 comes too early, and waits when 1 passes"
    );
    Ok(())
}
