//! The packets of a picture, one after the other.
ghost use Rattle.std.specs.Prelude.{◌≡◌, ℕ, ◌+◌, ◌-◌, ◌*◌, ◌^◌, ◌<◌, ◌≤◌, ◌==◌, [], ◌++◌, length, take, drop, true, false, IfOk, All, vec_len, vec_capacity};
ghost use Rattle.byteorder.specs.Endian.{big_bytes};
ghost use Rattle.io_edge.specs.Causes.{HasCause};
ghost use Rattle.pel_bits.specs.Bits.{bits};
ghost use Rattle.pel_model.specs.declared.Format.TheVariants.{Cif};
ghost use Rattle.pel_model.specs.Valid.{limit};
ghost use Rattle.rtp_wire.specs.Frames.{frame};
ghost use Rattle.rtp_wire.specs.Rtp.{octets_of, plain};
ghost use Rattle.cif_pack.specs.Atoms.{IsFinishedCif};
ghost use Rattle.cif_pack.specs.declared.atoms.AtomEnd.{AtomEnd as End};
ghost use Rattle.cif_pack.specs.Cuts.{octets_between, is_cut, cuts};
ghost use Rattle.cif_pack.specs.Packets.{packets_to, stamp_at, packet_between};
ghost use Rattle.cif_pack.specs.Payload.{payload_between, no_context};
ghost use Rattle.cif_pack.specs.Sending.{Rises};
ghost use Rattle.cif_pack.specs.State.{Puts, SendsPicture, AreFew, settings_after};

use crate::atoms::{AtomEnd, atom_ends};
use crate::payload::{append_part, extend, header};
use byteorder::{BigEndian, ByteOrder};
use h261_pic::Coded;
use io_edge::{Failed, Sink, put_all};
use pel_bits::NoMemory;
use rtp_wire::write_header;
use std::alloc::Global;
use std::marker::Model;

/// The octets of both headers of a packet: 12 of RTP and 4 of its payload.
const HEADER_OCTETS: usize = 16;

/// Ticks of the clock of 90 kHz in a step of 1,001 / 30,000 seconds (RFC 4587, 4.1).
const TICKS: u64 = 3003;

/// What is set for a stream of packets.
#[derive(Clone, Copy, Debug, PartialEq, Eq)]
pub struct Settings {
    /// The most octets of a packet, 1,000 to 9,000.
    pub mtu: u16,
    /// The sequence number of the first packet.
    pub seq: u16,
    /// What the clock of 90 kHz shows at total 0.
    pub stamp: u32,
    /// The synchronization source.
    pub ssrc: u32,
}

/// What was written for a picture.
#[derive(Clone, Copy, Debug, Default, PartialEq, Eq)]
pub struct Sent {
    /// The number of packets.
    pub packets: u64,
    /// Their octets, with the two of each frame's length.
    pub octets: u64,
}

/// Sends pictures as packets. Contracts see the settings, with the number of the next packet, and whether it is spent.
#[derive(Drop)]
pub struct Packer {
    settings: Settings,
    spent: bool,
    buffer: Vec<u8>,
}

impl Model for Packer {
    ghost use Rattle.cif_pack.specs.State.{PackerState};
    ghost use Rattle.std.specs.Prelude.{◌+◌, ◌≤◌, vec_capacity};

    ghost Value = { PackerState };

    ghost view = { λ p. record { settings = p.settings; spent = p.spent } };

    ghost invariant = { λ p. (1000 ≤ p.settings.mtu) × (p.settings.mtu ≤ 9000)
        × (p.settings.mtu + 2 ≤ vec_capacity p.buffer) };
}

impl Packer {
    /// A packer with these settings, the mtu from 1,000 to 9,000. It takes all its memory here; NoMemory where there is
    /// none.
    pub fn reserve(alloc: Global, settings: Settings) -> Result<Packer, NoMemory>
        requires mtu { (1000 ≤ settings.mtu) × (settings.mtu ≤ 9000) }
        ensures { IfOk result (λ packer. packer ≡
            record { settings = settings; spent = false }) }
    {
        let buffer = Vec::with_capacity(alloc, usize::from(settings.mtu) + 2)?;
        Ok(Packer {
            settings,
            spent: false,
            buffer,
        })
    }

    /// Writes the packets of a CIF picture that has all its groups, each in its frame and with one write, when the sum of
    /// the steps is `total`, at most 2^50; the number and the octets of what was written. A sink that fails was given a
    /// front of them, and the packer is spent: it may not be called again. It takes no memory.
    pub fn pack<K: Sink>(
        &mut self,
        picture: &Coded,
        total: u64,
        sink: &mut K,
    ) -> Result<Sent, Failed>
        requires usable { self.old.spent ≡ false }
        requires picture { IsFinishedCif picture.now }
        requires total { total ≤ 2 ^ 50 }
        ensures { SendsPicture picture.now total self.old self.new
            (K.tells sink.old) (K.tells sink.new) result }
    {
        self.spent = true;
        let stamp = stamp_at(&self.settings, total);
        let ends = atom_ends(picture);
        let len = picture.bits().len() as usize;
        let text = Text {
            octets: picture.octets(),
            len,
        };
        let sent = put_packets(
            &mut self.buffer,
            &self.settings,
            stamp,
            &text,
            ends.as_slice(),
            sink,
        )?;
        self.settings = numbered(&self.settings, sent.packets);
        self.spent = false;
        Ok(sent)
    }
}

/// The timestamp at this total.
fn stamp_at(settings: &Settings, total: u64) -> u32
    requires { total ≤ 2 ^ 50 }
    ensures { result ≡ stamp_at settings.now total }
{
    ((u64::from(settings.stamp) + TICKS * total) % 0x1_0000_0000) as u32
}

/// A picture's text: its octets, and the number of its bits.
#[derive(Clone, Copy)]
struct Text<'a> {
    octets: &'a [u8],
    len: usize,
}

/// Writes the packets that are cut at some of these ends, each in its frame and with one write.
fn put_packets<K: Sink>(
    buffer: &mut Vec<u8>,
    settings: &Settings,
    stamp: u32,
    text: &Text<'_>,
    ends: &[AtomEnd],
    sink: &mut K,
) -> Result<Sent, Failed>
    requires mtu { settings.now.mtu ≤ 9000 }
    requires room { settings.now.mtu + 2 ≤ vec_capacity buffer.old }
    requires inside { text.now.len ≤ 8 * length text.now.octets.now }
    requires short { text.now.len ≤ limit Cif }
    requires few { length ends.now ≤ 396 }
    requires rises { Rises settings.now.mtu text.now.len 0 ends.now }
    ensures packets { Puts (K.tells sink.old).written (K.tells sink.new).written result
        (packets_to settings.now stamp 0 (take text.now.len (bits text.now.octets.now)) 0 no_context
        (cuts settings.now.mtu 0 ends.now)) }
    ensures few { IfOk result (λ sent. AreFew sent) }
    ensures cause { HasCause (K.tells sink.old).faults (K.tells sink.new).faults result }
    ensures kept { vec_capacity buffer.old ≤ vec_capacity buffer.new }
{
    let mut sent = Sent {
        packets: 0,
        octets: 0,
    };
    let mut start = beginning();
    for i in 0..ends.len() {
        if is_cut(settings.mtu, start.at, &ends[i + 1..]) {
            write_frame(
                buffer,
                &numbered(settings, sent.packets),
                stamp,
                text,
                &start,
                ends[i].at,
            );
            put_all(sink, buffer.as_slice())?;
            sent.packets += 1;
            sent.octets += buffer.len() as u64;
            start = ends[i];
        }
    }
    Ok(sent)
}

/// The beginning of a text.
fn beginning() -> AtomEnd
    ensures { result ≡ record { at = 0; context = no_context } }
{
    AtomEnd::default()
}

/// The settings with the number of the packet after so many.
fn numbered(settings: &Settings, before: u64) -> Settings
    ensures { result ≡ settings_after settings.now before }
{
    Settings {
        seq: settings.seq.wrapping_add((before % 0x1_0000) as u16),
        ..*settings
    }
}

/// Whether a packet that begins at `from` goes no further than the end before these.
fn is_cut(mtu: u16, from: usize, left: &[AtomEnd]) -> bool
    requires mtu { 16 ≤ mtu }
    requires near { All (λ (e : End). e.at < 2 ^ 60) left.now }
    ensures { result ≡ is_cut mtu from left.now }
{
    match left.first() {
        None => true,
        Some(end) => octets_between(from, end.at) > usize::from(mtu) - HEADER_OCTETS,
    }
}

/// The octets in which the bits from one place to another stand.
fn octets_between(from: usize, to: usize) -> usize
    requires { to < 2 ^ 60 }
    ensures { result ≡ octets_between from to }
{
    ((to + 7) / 8).saturating_sub(from / 8)
}

/// Leaves in `buffer` the packet that brings the text's bits from one place to another, behind its length.
fn write_frame(
    buffer: &mut Vec<u8>,
    settings: &Settings,
    stamp: u32,
    text: &Text<'_>,
    start: &AtomEnd,
    to: usize,
)
    requires some { start.now.at < to }
    requires within { to ≤ text.now.len }
    requires inside { text.now.len ≤ 8 * length text.now.octets.now }
    requires short { text.now.len < 2 ^ 32 }
    requires fits { octets_between start.now.at to + 16 ≤ 9000 }
    requires room { octets_between start.now.at to + 18 ≤ vec_capacity buffer.old }
    ensures octets { buffer.new.items ≡ frame (packet_between settings.now stamp 0
        (take text.now.len (bits text.now.octets.now)) start.now.at to start.now.context) }
    ensures long { length buffer.new.items ≡ octets_between start.now.at to + 18 }
    ensures kept { vec_capacity buffer.old ≤ vec_capacity buffer.new }
{
    let len = octets_between(start.at, to) + HEADER_OCTETS;
    buffer.clear();
    put_u16(buffer, len as u16);
    put_fixed(buffer, to == text.len, settings, stamp);
    put_u32(buffer, header(start.at, to, &start.context));
    append_part(buffer, text.octets, start.at, to);
}

/// Appends a number of 16 bits.
fn put_u16(buffer: &mut Vec<u8>, number: u16)
    requires { vec_len buffer.old + 2 ≤ vec_capacity buffer.old }
    ensures items { buffer.new.items ≡ buffer.old.items ++ big_bytes 2 number }
    ensures kept { vec_capacity buffer.old ≤ vec_capacity buffer.new }
{
    let mut octets = [0; 2];
    BigEndian::write_u16(&mut octets, number);
    extend(buffer, &octets);
}

/// Appends a number of 32 bits.
fn put_u32(buffer: &mut Vec<u8>, number: u32)
    requires { vec_len buffer.old + 4 ≤ vec_capacity buffer.old }
    ensures items { buffer.new.items ≡ buffer.old.items ++ big_bytes 4 number }
    ensures kept { vec_capacity buffer.old ≤ vec_capacity buffer.new }
{
    let mut octets = [0; 4];
    BigEndian::write_u32(&mut octets, number);
    extend(buffer, &octets);
}

/// Appends the fixed header of a packet.
fn put_fixed(buffer: &mut Vec<u8>, marker: bool, settings: &Settings, stamp: u32)
    requires { vec_len buffer.old + 12 ≤ vec_capacity buffer.old }
    ensures items { buffer.new.items ≡ buffer.old.items ++ octets_of (plain (record {
      marker = marker;
      kind = 31;
      seq = settings.now.seq;
      stamp = stamp;
      ssrc = settings.now.ssrc;
      payload = [];
    })) }
    ensures kept { vec_capacity buffer.old ≤ vec_capacity buffer.new }
{
    let mut fixed = [0; 12];
    write_header(marker, settings.seq, stamp, settings.ssrc, &mut fixed);
    extend(buffer, &fixed);
}
