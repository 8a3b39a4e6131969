//! Entries put into a sink and counted.
ghost use Rattle.std.specs.Prelude.{◌≡◌, ℕ, ◌+◌, ◌-◌, ◌*◌, ◌%◌, ◌^◌, ◌<◌, ◌≤◌, ◌==◌, [], ◌∷◌, ◌++◌, length, IsTrue};
ghost use Rattle.arrayvec.specs.ArrayVec.{array_vec_len};
ghost use Rattle.chair_words.specs.Line.{has_sayable_lane};
ghost use Rattle.conf_file.specs.Entries.{Packet, Chair};
ghost use Rattle.conf_file.specs.Header.{header_of};
ghost use Rattle.io_edge.specs.Causes.{HasCause};
ghost use Rattle.pel_bits.specs.Buffer.{whole};
ghost use Rattle.conf_make.specs.Ends.{no_entries};
ghost use Rattle.conf_make.specs.Made.{entry_of};
ghost use Rattle.conf_make.specs.Packets.{made_packet};
ghost use Rattle.conf_make.specs.Writing.{PutsHeader, PutsEntries, CanCountEntries, most_bits, most_entry_octets};

use arrayvec::ArrayVec;
use byteorder::{BigEndian, ByteOrder};
use chair_words::write_line;
use io_edge::{Failed, Sink, put_all};
use pel_bits::BitBuf;
use pel_model::Command;
use rtp_wire::write_header;

/// The most octets of an entry, and more.
const MOST_OCTETS: usize = 1000;

/// The octets of both headers of a packet: 12 of RTP and 4 of its payload.
const HEADER_OCTETS: usize = 16;

/// What the clock of 90 kHz goes on from one picture of a lane to its next.
const CLOCK_PER_PICTURE: u64 = 9009;

/// What was written whole: the entries, the end included, and the octets of them and of the header.
#[derive(Clone, Copy, Debug, PartialEq, Eq)]
pub struct MakeTally {
    pub records: u64,
    pub octets: u64,
}

/// Writes the header of a conference of 1 to 16 lanes, and counts its octets where it was written whole.
pub fn put_header<K: Sink>(lanes: u8, tally: &mut MakeTally, sink: &mut K) -> Result<(), Failed>
    requires { tally.old ≡ no_entries }
    ensures header { PutsHeader result (K.tells sink.old).written (K.tells sink.new).written (header_of lanes)
        tally.new }
    ensures cause { HasCause (K.tells sink.old).faults (K.tells sink.new).faults result }
{
    let mut header = *b"H261CONF\x01\x00";
    header[9] = lanes;
    put_all(sink, &header)?;
    tally.octets = 10;
    Ok(())
}

/// Writes an entry, and counts it where it was written whole.
pub fn put_entry<K: Sink>(entry: &[u8], tally: &mut MakeTally, sink: &mut K) -> Result<(), Failed>
    requires few { CanCountEntries 1 tally.old }
    requires short { length entry.now ≤ most_entry_octets }
    ensures { PutsEntries 1 (entry.now ∷ []) (K.tells sink.old) (K.tells sink.new) tally.old tally.new result }
{
    put_all(sink, entry)?;
    tally.records += 1;
    tally.octets += entry.len() as u64;
    Ok(())
}

/// Writes the entry of a command, whose lane is 15 at most.
pub fn put_order<K: Sink>(
    command: Command,
    tally: &mut MakeTally,
    sink: &mut K,
) -> Result<(), Failed>
    requires sayable { IsTrue (has_sayable_lane command) }
    requires few { CanCountEntries 1 tally.old }
    ensures { PutsEntries 1 (entry_of (Chair command) ∷ []) (K.tells sink.old) (K.tells sink.new) tally.old tally.new
        result }
{
    let line = write_line(command);
    let mut entry = ArrayVec::new();
    extend(&mut entry, &[b'C', line.len() as u8]);
    extend(&mut entry, line.as_str().as_bytes());
    put_entry(entry.as_slice(), tally, sink)
}

/// Writes the entry of a lane's packet at a tick, which brings these bits.
pub fn put_packet<K: Sink>(
    tick: u32,
    lane: u8,
    bits: &BitBuf,
    tally: &mut MakeTally,
    sink: &mut K,
) -> Result<(), Failed>
    requires tick { 0 < tick }
    requires short { length bits.now.list ≤ most_bits }
    requires few { CanCountEntries 1 tally.old }
    ensures { PutsEntries 1 (entry_of (Packet lane (made_packet tick lane bits.now.list)) ∷ []) (K.tells sink.old)
        (K.tells sink.new) tally.old tally.new result }
{
    let entry = packet_entry(tick, lane, bits);
    put_entry(entry.as_slice(), tally, sink)
}

/// The entry of a packet.
fn packet_entry(tick: u32, lane: u8, bits: &BitBuf) -> ArrayVec<u8, MOST_OCTETS>
    requires tick { 0 < tick }
    requires short { length bits.now.list ≤ most_bits }
    ensures { result.items ≡ entry_of (Packet lane (made_packet tick lane bits.now.list)) }
{
    let octets = bits.octets();
    let size = HEADER_OCTETS + octets.len();
    let number = ((tick - 1) % 0x1_0000) as u16;
    let mut fixed = [0; 12];
    write_header(true, number, stamp_at(tick), u32::from(lane), &mut fixed);
    let mut length = [0; 2];
    BigEndian::write_u16(&mut length, size as u16);
    let mut entry = ArrayVec::new();
    extend(&mut entry, &[b'P', lane]);
    extend(&mut entry, &length);
    extend(&mut entry, &fixed);
    extend(&mut entry, &payload_header(bits.len()));
    extend(&mut entry, octets);
    entry
}

/// The timestamp at a tick.
fn stamp_at(tick: u32) -> u32
    ensures { result ≡ 9009 * tick % 2 ^ 32 }
{
    (CLOCK_PER_PICTURE * u64::from(tick) % 0x1_0000_0000) as u32
}

/// The payload header of a packet that brings so many bits.
fn payload_header(len: u32) -> [u8; 4]
    requires { len ≤ most_bits }
    ensures { result ≡ (4 * (whole len - len) + 1) ∷ 0 ∷ 0 ∷ 0 ∷ [] }
{
    let ebit = (8 - len % 8) % 8;
    [4 * ebit as u8 + 1, 0, 0, 0]
}

/// Appends octets to an entry that has room for them.
fn extend(entry: &mut ArrayVec<u8, MOST_OCTETS>, octets: &[u8])
    requires { array_vec_len entry.old + length octets.now ≤ most_entry_octets }
    ensures { entry.new.items ≡ entry.old.items ++ octets.now }
{
    let Ok(()) = entry.try_extend_from_slice(octets) else {
        unreachable!()
    };
}
