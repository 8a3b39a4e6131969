//! The payload header of H.261 over RTP (RFC 4587, 4.1).
ghost use Rattle.std.specs.Prelude.{◌≡◌, ◌+◌, ◌^◌, ◌<◌, ◌≤◌, [], ◌∷◌, length, take, drop, MatchOption, Some};
ghost use Rattle.pel_bits.specs.Bits.{bits, field};
ghost use Rattle.rtp_h261.specs.declared.payload.PayloadHeader.{PayloadHeader as PayloadHeaderOf};
ghost use Rattle.rtp_h261.specs.Payload.{AreWidths, CanBeSent, FitsFiveBits, payload_header_bits, five_bits_of};

use byteorder::{BigEndian, ByteOrder};
use pel_bits::Bits;

/// What the payload header says, with the names of RFC 4587, 4.1.
#[derive(Clone, Copy, Debug, PartialEq, Eq)]
pub struct PayloadHeader {
    /// SBIT, 3 bits: how many bits of the first octet do not belong to this packet.
    pub sbit: u8,
    /// EBIT, 3 bits: how many bits of the last octet do not.
    pub ebit: u8,
    /// Whether the stream has only Intra pictures.
    pub i: bool,
    /// Whether motion vectors may be used.
    pub v: bool,
    /// GOBN, 4 bits: the group of blocks in effect, 0 where a picture or group header begins the packet.
    pub gobn: u8,
    /// MBAP, 5 bits: the address of the last macroblock, less 1.
    pub mbap: u8,
    /// QUANT, 5 bits: the quantiser in effect.
    pub quant: u8,
    /// HMVD, the last macroblock's horizontal vector, in 5 bits of two's complement.
    pub hmvd: i8,
    /// VMVD, its vertical vector.
    pub vmvd: i8,
}

/// Reads the payload header, the first four octets of a packet's payload. None where there are fewer.
pub fn read_payload(b: &[u8]) -> Option<PayloadHeader>
    ensures exact { MatchOption result (length b.now < 4) (λ h.
        (4 ≤ length b.now) × AreWidths h × (payload_header_bits h ≡ take 32 (bits b.now))) }
    ensures only { (h : PayloadHeaderOf) → AreWidths h → 4 ≤ length b.now →
        payload_header_bits h ≡ take 32 (bits b.now) → result ≡ Some h }
{
    if b.len() < 4 {
        return None;
    }
    let bits = Bits::new(b, 0, 32);
    Some(PayloadHeader {
        sbit: field_at(&bits, 0, 3),
        ebit: field_at(&bits, 3, 3),
        i: flag_at(&bits, 6),
        v: flag_at(&bits, 7),
        gobn: field_at(&bits, 8, 4),
        mbap: field_at(&bits, 12, 5),
        quant: field_at(&bits, 17, 5),
        hmvd: from_five_bits(field_at(&bits, 22, 5)),
        vmvd: from_five_bits(field_at(&bits, 27, 5)),
    })
}

/// Writes the payload header. Each field has to fit its width, and no vector is -16 (RFC 4587, 4.1).
pub fn write_payload(h: PayloadHeader, out: &mut [u8; 4])
    requires { CanBeSent h }
    ensures { bits out.new ≡ payload_header_bits h }
{
    write_word(word_of(&h), out);
}

// The header as a number of 32 bits.
fn word_of(h: &PayloadHeader) -> u32
    requires { CanBeSent h.now }
    ensures { field result 32 ≡ payload_header_bits h.now }
{
    let places = u32::from(h.sbit) * 8 + u32::from(h.ebit);
    let flags = places * 4 + u32::from(h.i) * 2 + u32::from(h.v);
    let group = flags * 16 + u32::from(h.gobn);
    let address = group * 32 + u32::from(h.mbap);
    let quantiser = address * 32 + u32::from(h.quant);
    let across = quantiser * 32 + u32::from(to_five_bits(h.hmvd));
    across * 32 + u32::from(to_five_bits(h.vmvd))
}

// The octets of a number, the highest first.
fn write_word(word: u32, out: &mut [u8])
    requires { length out.old ≡ 4 }
    ensures { bits out.new ≡ field word 32 }
{
    BigEndian::write_u32(out, word);
}

// Two's complement in 5 bits.
fn to_five_bits(number: i8) -> u8
    requires { FitsFiveBits number }
    ensures small { result < 32 }
    ensures value { result ≡ five_bits_of number }
{
    if number < 0 {
        (number + 32) as u8
    } else {
        number as u8
    }
}

// The field of `width` bits, 8 at most, from bit `from` on.
fn field_at(bits: &Bits<'_>, from: u32, width: u32) -> u8
    requires width { width ≤ 8 }
    requires inside { from + width ≤ length bits.now }
    ensures small { result < 2 ^ width }
    ensures value { field result width ≡ take width (drop from bits.now) }
{
    bits.number(from, width) as u8
}

// The bit at a place.
fn flag_at(bits: &Bits<'_>, at: u32) -> bool
    requires { at + 1 ≤ length bits.now }
    ensures { result ∷ [] ≡ take 1 (drop at bits.now) }
{
    bits.number(at, 1) == 1
}

// A number of 5 bits as two's complement.
fn from_five_bits(number: u8) -> i8
    requires { number < 32 }
    ensures fits { FitsFiveBits result }
    ensures value { five_bits_of result ≡ number }
{
    if number < 16 {
        number as i8
    } else {
        number as i8 - 32
    }
}
