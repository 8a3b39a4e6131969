//! The payload of a packet of H.261 (RFC 4587, 4.1): its header, and the octets of the text in which its bits stand.
ghost use Rattle.std.specs.Prelude.{◌≡◌, ◌+◌, ◌-◌, ◌*◌, ◌/◌, ◌<◌, ◌≤◌, [], ◌∷◌, ◌++◌, length, take, drop, false, true, vec_len, vec_capacity};
ghost use Rattle.pel_bits.specs.Reading.{zeros};
ghost use Rattle.pel_bits.specs.Bits.{bits, field};
ghost use Rattle.cif_pack.specs.Cuts.{octets_between};
ghost use Rattle.cif_pack.specs.Payload.{payload_header, low_five_bits, bits_packed, sbit_of, ebit_of};

use crate::atoms::Context;

/// The header: SBIT 3 bits, EBIT 3, I 0, V 1, GOBN 4, MBAP 5, QUANT 5, HMVD 5, VMVD 5.
pub fn header(from: usize, to: usize, context: &Context) -> u32
    ensures { field result 32 ≡
        payload_header (sbit_of from) (ebit_of to) false true context.now }
{
    let bits = sbit(from) * 8 + ebit(to);
    let place = (bits * 4 + 1) * 16 + u32::from(context.gobn % 16);
    let before = (place * 32 + u32::from(context.mbap % 32)) * 32 + u32::from(context.quant % 32);
    (before * 32 + low_five_bits(context.across)) * 32 + low_five_bits(context.down)
}

/// How many bits of the first octet lie before a place.
fn sbit(from: usize) -> u32
    ensures { result ≡ sbit_of from }
{
    (from % 8) as u32
}

/// How many bits of the last octet lie behind a place.
fn ebit(to: usize) -> u32
    ensures { result ≡ ebit_of to }
{
    ((8 - to % 8) % 8) as u32
}

/// The last 5 bits of a component in two's complement.
fn low_five_bits(component: i8) -> u32
    ensures { result ≡ low_five_bits component }
{
    // 128 is a multiple of 32
    (i32::from(component) + 128) as u32 % 32
}

/// Appends the octets in which the bits from one place to another stand, with zeros in place of all other bits.
pub fn append_part(buffer: &mut Vec<u8>, octets: &[u8], from: usize, to: usize)
    requires some { from < to }
    requires inside { to ≤ 8 * length octets.now }
    requires room { vec_len buffer.old + octets_between from to ≤ vec_capacity buffer.old }
    ensures octets { buffer.new.items ≡ buffer.old.items ++ bits_packed (zeros (sbit_of from)
        ++ (take (to - from) (drop from (bits octets.now)) ++ zeros (ebit_of to))) }
    ensures kept { vec_capacity buffer.old ≤ vec_capacity buffer.new }
{
    let first = from / 8;
    let last = (to - 1) / 8;
    let head = without_front(octets[first], sbit(from));
    if first == last {
        push(buffer, without_back(head, ebit(to)));
    } else {
        push(buffer, head);
        extend(buffer, &octets[first + 1..last]);
        push(buffer, without_back(octets[last], ebit(to)));
    }
}

/// An octet with so many zeros in place of its first bits.
fn without_front(octet: u8, count: u32) -> u8
    requires { count < 8 }
    ensures { field result 8 ≡ zeros count ++ drop count (field octet 8) }
{
    octet << count >> count
}

/// An octet with so many zeros in place of its last bits.
fn without_back(octet: u8, count: u32) -> u8
    requires { count < 8 }
    ensures { field result 8 ≡ take (8 - count) (field octet 8) ++ zeros count }
{
    octet >> count << count
}

/// Appends octets where there is room for them.
pub fn extend(buffer: &mut Vec<u8>, octets: &[u8])
    requires { vec_len buffer.old + length octets.now ≤ vec_capacity buffer.old }
    ensures items { buffer.new.items ≡ buffer.old.items ++ octets.now }
    ensures kept { vec_capacity buffer.old ≤ vec_capacity buffer.new }
{
    let Ok(()) = buffer.extend_from_slice(octets) else {
        unreachable!()
    };
}

/// Appends an octet where there is room for it.
fn push(buffer: &mut Vec<u8>, octet: u8)
    requires { vec_len buffer.old < vec_capacity buffer.old }
    ensures items { buffer.new.items ≡ buffer.old.items ++ octet ∷ [] }
    ensures kept { vec_capacity buffer.old ≤ vec_capacity buffer.new }
{
    let Ok(()) = buffer.push(octet) else {
        unreachable!()
    };
}
