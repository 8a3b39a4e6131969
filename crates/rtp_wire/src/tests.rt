//! Packets at the borders of each refusal, and streams that end in each way, with answers counted by hand.
use super::{FrameEnd, Framer, PacketFault, read_packet, write_header};
use io_edge::MemSource;
use std::test::Fail;

/// The first octet, the octets of the packet and its last octet; the octets of its payload, or the refusal. The
/// extension, if there is one, has 2 words where no source stands before it and 1 word behind one source.
const BORDERS: [(u8, usize, u8, Result<usize, PacketFault>); 22] = [
    (0x00, 0, 0, Err(PacketFault::Short)),
    (0x80, 11, 0, Err(PacketFault::Short)),
    (0x80, 12, 0, Ok(0)),
    (0x80, 13, 0, Ok(1)),
    (0x0f, 12, 0, Err(PacketFault::Version)),
    (0x7f, 12, 0, Err(PacketFault::Version)),
    (0xff, 12, 0, Err(PacketFault::Version)),
    (0x81, 15, 0, Err(PacketFault::BadCsrc)),
    (0x81, 16, 0, Ok(0)),
    (0xbf, 71, 0, Err(PacketFault::BadCsrc)),
    (0x8f, 72, 0, Ok(0)),
    (0xb0, 15, 0, Err(PacketFault::BadExtension)),
    (0x90, 23, 0, Err(PacketFault::BadExtension)),
    (0x90, 24, 0, Ok(0)),
    (0xa0, 12, 1, Err(PacketFault::BadPadding)),
    (0xa0, 13, 0, Err(PacketFault::BadPadding)),
    (0xa0, 13, 1, Ok(0)),
    (0xa0, 15, 2, Ok(1)),
    (0xa0, 15, 3, Ok(0)),
    (0xa0, 15, 4, Err(PacketFault::BadPadding)),
    (0xb1, 29, 3, Ok(2)),
    (0xb1, 29, 6, Err(PacketFault::BadPadding)),
];

#[test]
fn each_refusal_has_its_border(rt: HostRuntime) {
    for (first, length, last, want) in BORDERS {
        let mut bytes = [0; 72];
        if length > 0 && length <= 72 {
            bytes[length - 1] = last;
            bytes[0] = first;
            bytes[15] = 2;
            bytes[19] = 1;
            let got = read_packet(&bytes[..length]).map(|packet| packet.payload.len());
            assert_eq!(rt; got, want, "first octet {first}, {length} octets");
        } else {
            assert_eq!(rt; read_packet(&[]).map(|packet| packet.payload.len()), want);
        }
    }
}

#[test]
fn a_header_is_written_and_read_again(rt: HostRuntime) {
    let mut out = [0; 12];
    write_header(true, 0xfffe, 0x01020304, 1211250225, &mut out);
    assert_eq!(rt; &out, b"\x80\x9f\xff\xfe\x01\x02\x03\x04H261");
    write_header(false, 7, 0xfedcba98, 1, &mut out);
    assert_eq!(rt; &out, b"\x80\x1f\x00\x07\xfe\xdc\xba\x98\x00\x00\x00\x01");
    let mut packet = *b"\xb1\xe0\xff\xfe\x01\x02\x03\x04H261abcd\xbe\xde\x00\x01wordxy\x00\x00\x03";
    let read = read_packet(&packet).map(|p| (p.marker, p.kind, p.seq, p.stamp, p.ssrc));
    assert_eq!(rt; read, Ok((true, 0x60, 0xfffe, 0x01020304, 1211250225)));
    assert!(rt; read_packet(&packet).is_ok_and(|p| p.payload == b"xy".as_slice()));
    packet[1] = 0x1f;
    assert!(rt; read_packet(&packet).is_ok_and(|p| !p.marker && p.kind == 31));
}

/// A frame of three octets, an empty one, and one of one octet.
const STREAM: [u8; 10] = [0, 3, 1, 2, 3, 0, 0, 0, 1, 9];

#[test]
fn frames_come_in_any_pieces(rt: HostRuntime) -> Result<(), Fail> {
    let alloc = rt.alloc();
    for piece in [1, 2, 3, 10] {
        let mut bytes = Vec::new(alloc);
        bytes.extend_from_slice(&STREAM)?;
        let mut source = MemSource::new(bytes, Vec::new(alloc), piece);
        let mut framer = Framer::reserve(alloc, 99)?;
        assert!(rt;
            framer
                .next(&mut source)
                .is_ok_and(|packet| packet == [1, 2, 3].as_slice()),
            "pieces of {piece}"
        );
        assert_eq!(rt;
            (framer.taken(), source.left().len()),
            (5, 5),
            "no octet past the frame"
        );
        assert!(rt;
            framer
                .next(&mut source)
                .is_ok_and(|packet| packet.is_empty())
        );
        assert!(rt;
            framer
                .next(&mut source)
                .is_ok_and(|packet| packet == [9].as_slice())
        );
        for _ in 0..2 {
            assert_eq!(rt; framer.next(&mut source).err(), Some(FrameEnd::End));
        }
    }
    Ok(())
}

/// The octets of the stream, the call that fails and the budget; the packets, and the end.
const ENDS: [(usize, u64, u64, usize, FrameEnd); 24] = [
    (0, 9, 99, 0, FrameEnd::End),
    (1, 9, 99, 0, FrameEnd::Cut { place: 1 }),
    (2, 9, 99, 0, FrameEnd::Cut { place: 2 }),
    (4, 9, 99, 0, FrameEnd::Cut { place: 4 }),
    (5, 9, 99, 1, FrameEnd::End),
    (6, 9, 99, 1, FrameEnd::Cut { place: 6 }),
    (7, 9, 99, 2, FrameEnd::End),
    (9, 9, 99, 2, FrameEnd::Cut { place: 9 }),
    (10, 1, 99, 0, FrameEnd::Fault),
    (10, 2, 99, 0, FrameEnd::Fault),
    (10, 3, 99, 1, FrameEnd::Fault),
    (10, 4, 99, 2, FrameEnd::Fault),
    (10, 5, 99, 2, FrameEnd::Fault),
    (10, 6, 99, 3, FrameEnd::Fault),
    (10, 7, 99, 3, FrameEnd::End),
    (0, 9, 0, 0, FrameEnd::Limit),
    (10, 9, 1, 0, FrameEnd::Limit),
    (10, 9, 2, 0, FrameEnd::Limit),
    (10, 9, 4, 0, FrameEnd::Limit),
    (4, 9, 4, 0, FrameEnd::Limit),
    (10, 9, 5, 1, FrameEnd::Limit),
    (10, 9, 9, 2, FrameEnd::Limit),
    (10, 9, 10, 3, FrameEnd::Limit),
    (10, 9, 11, 3, FrameEnd::End),
];

#[test]
fn a_stream_ends_in_each_way(rt: HostRuntime) -> Result<(), Fail> {
    let alloc = rt.alloc();
    for (length, fails, budget, count, want) in ENDS {
        let mut bytes = Vec::new(alloc);
        bytes.extend_from_slice(&STREAM)?;
        bytes.truncate(length);
        let fails = vec![in alloc; fails]?;
        let mut source = MemSource::new(bytes, fails, 9);
        let mut framer = Framer::reserve(alloc, budget)?;
        for _ in 0..count {
            assert!(rt; framer.next(&mut source).is_ok(), "{want:?}");
        }
        for _ in 0..2 {
            assert_eq!(rt; framer.next(&mut source).err(), Some(want));
        }
    }
    Ok(())
}
