//! The RTP packet: its fixed header, what may follow it, and its payload (RFC 3550, 5.1 and 5.3.1).
ghost use Rattle.std.specs.Prelude.{◌≡◌, ◌+◌, ◌*◌, ◌<◌, ◌≤◌, ◌++◌, [], Ok, Err, drop, length, true, false, MatchResult, MatchOption, IfOk, IsOkAnd};
ghost use Rattle.rtp_wire.specs.Rtp.{header_octets, seen, packet_of, fields_of, sources_end, has_padding, extension_is_cut, body, is_bad_padding, unpadded};

use byteorder::{BigEndian, ByteOrder};
use thiserror::Error;

/// The octets of the fixed header.
const FIXED: usize = 12;

/// What an RTP packet says: marker bit, payload type (`kind`, 0 to 127), sequence number, timestamp (`stamp`, for video
/// 90,000 a second), synchronization source, and the payload without the padding behind it.
#[derive(Debug, Clone, Copy)]
pub struct Packet<'a> {
    pub marker: bool,
    pub kind: u8,
    pub seq: u16,
    pub stamp: u32,
    pub ssrc: u32,
    pub payload: &'a [u8],
}

/// Why octets are no RTP packet. Where several hold, the earliest is told.
#[derive(Debug, Clone, Copy, PartialEq, Eq, Error)]
pub enum PacketFault {
    #[error("fewer than 12 octets")]
    Short,
    #[error("the version is not 2")]
    Version,
    #[error("the list of contributing sources is cut short")]
    BadCsrc,
    #[error("the header extension is cut short")]
    BadExtension,
    #[error("the padding is empty or longer than what follows the headers")]
    BadPadding,
}

/// Reads an RTP packet (RFC 3550, 5.1 and 5.3.1), or tells the first refusal that holds. The payload type, the sources
/// and the extension may have any value.
#[tactic(auto, unfolding(crate::specs::Rtp::packet_of, crate::specs::Rtp::refusal, crate::specs::Rtp::fields_of))]
pub fn read_packet(bytes: &[u8]) -> Result<Packet<'_>, PacketFault>
    // Which refusal, or which fields.
    ensures exact { MatchResult result (λ p. packet_of bytes.now ≡ Ok (seen p))
        (λ e. packet_of bytes.now ≡ Err e) }
{
    if bytes.len() < FIXED {
        return Err(PacketFault::Short);
    }
    if bytes[0] >> 6 != 2 {
        return Err(PacketFault::Version);
    }
    if bytes.len() < sources_end(bytes) {
        return Err(PacketFault::BadCsrc);
    }
    let Some(body) = after_headers(bytes) else {
        return Err(PacketFault::BadExtension);
    };
    let Some(payload) = without_padding(body, is_padded(bytes)) else {
        return Err(PacketFault::BadPadding);
    };
    Ok(with_payload(bytes, payload))
}

/// The fields of the fixed header, with this payload.
#[tactic(auto, unfolding(crate::specs::Rtp::fields_of))]
fn with_payload<'a>(bytes: &[u8], payload: &'a [u8]) -> Packet<'a>
    requires { 12 ≤ length bytes.now }
    ensures { seen result ≡ record (fields_of bytes.now) { payload = payload.now } }
{
    Packet {
        marker: bytes[1] >> 7 == 1,
        kind: bytes[1] & 0x7f,
        seq: BigEndian::read_u16(&bytes[2..]),
        stamp: BigEndian::read_u32(&bytes[4..]),
        ssrc: BigEndian::read_u32(&bytes[8..]),
        payload,
    }
}

/// Where the list of contributing sources ends.
fn sources_end(bytes: &[u8]) -> usize
    requires { 0 < length bytes.now }
    ensures { result ≡ sources_end bytes.now }
{
    FIXED + 4 * (bytes[0] & 0x0f) as usize
}

/// What stands behind the headers, if the extension is whole.
fn after_headers(bytes: &[u8]) -> Option<&[u8]>
    requires first { 0 < length bytes.now }
    requires sources { sources_end bytes.now ≤ length bytes.now }
    ensures { MatchOption result (extension_is_cut bytes.now ≡ true)
        (λ rest. (extension_is_cut bytes.now ≡ false) × (rest.now ≡ body bytes.now)) }
{
    let start = sources_end(bytes);
    if bytes[0] >> 4 & 1 == 0 {
        return Some(&bytes[start..]);
    }
    if bytes.len() < start + 4 {
        return None;
    }
    let end = start + 4 + 4 * BigEndian::read_u16(&bytes[start + 2..]) as usize;
    if bytes.len() < end {
        return None;
    }
    Some(&bytes[end..])
}

/// Whether the packet says that it has padding.
fn is_padded(bytes: &[u8]) -> bool
    requires { 0 < length bytes.now }
    ensures { result ≡ has_padding bytes.now }
{
    bytes[0] >> 5 & 1 == 1
}

/// What stands behind the headers without the padding, if there is padding and it is as long as it says.
fn without_padding(body: &[u8], is_padded: bool) -> Option<&[u8]>
    ensures { MatchOption result (is_bad_padding is_padded body.now ≡ true)
        (λ rest. (is_bad_padding is_padded body.now ≡ false)
        × (rest.now ≡ unpadded is_padded body.now)) }
{
    if !is_padded {
        return Some(body);
    }
    let count = *body.last()? as usize;
    if count == 0 || count > body.len() {
        return None;
    }
    Some(&body[..body.len() - count])
}

/// The payload type of H.261 (RFC 3551, 6).
const H261: u16 = 31;

/// Writes the fixed header (RFC 3550, 5.1) of a packet of H.261, payload type 31, with no sources, no extension and no
/// padding.
pub fn write_header(marker: bool, seq: u16, stamp: u32, ssrc: u32, out: &mut [u8; 12])
    ensures { out.new ≡ header_octets marker seq stamp ssrc }
{
    write_fields(marker, seq, stamp, ssrc, out);
}

/// Writes the fixed header over the front of `out`.
fn write_fields(marker: bool, seq: u16, stamp: u32, ssrc: u32, out: &mut [u8])
    requires { length out.old ≡ 12 }
    ensures { out.new ≡ header_octets marker seq stamp ssrc }
{
    // version 2, and nothing else in the first octet
    let kind = 0x8000 | if marker { 0x80 | H261 } else { H261 };
    BigEndian::write_u16(out, kind);
    BigEndian::write_u16(&mut out[2..], seq);
    BigEndian::write_u32(&mut out[4..], stamp);
    BigEndian::write_u32(&mut out[8..], ssrc);
}
