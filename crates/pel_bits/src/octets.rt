//! Reading and writing runs of bits in plain slices of octets. A run of up to 56 bits lies within eight octets
//! from the one in which it begins, so that it is read by one load and written by one store of a 64-bit word.
#![tactic(auto)]

ghost use Rattle.std.specs.Prelude.{◌≡◌, ◌+◌, ◌-◌, ◌*◌, ◌/◌, ◌%◌, ◌^◌, ◌<◌, ◌≤◌, ◌++◌, length, take, drop};
ghost use Rattle.pel_bits.specs.Bits.{bits, field, number};
ghost use Rattle.pel_bits.specs.Buffer.{filled_up, whole};

/// The number that `width` bits spell from bit `from` on. At most 56 bits.
#[inline]
pub fn number_at(octets: &[u8], from: usize, width: u32) -> u64
    requires width { width ≤ 56 }
    requires inside { from + width ≤ 8 * length octets.now }
    requires small { from + width < 2 ^ 40 }
    ensures { result ≡ number (take width (drop from (bits octets.now))) }
{
    if octets.len() - from / 8 >= 8 {
        word_at(octets, from, width)
    } else {
        slow_at(octets, from, width)
    }
}

// The same where eight octets are left from the one in which the run begins.
#[inline]
fn word_at(octets: &[u8], from: usize, width: u32) -> u64
    requires width { width ≤ 56 }
    requires inside { from / 8 + 8 ≤ length octets.now }
    ensures { result ≡ number (take width (drop from (bits octets.now))) }
{
    let word = load(octets, from / 8);
    let run = (word >> (8 - from % 8)) % 0x0100_0000_0000_0000;
    run >> (56 - width)
}

// The same bit by bit, near the end of the octets.
#[cold]
#[inline(never)]
fn slow_at(octets: &[u8], from: usize, width: u32) -> u64
    requires width { width ≤ 56 }
    requires inside { from + width ≤ 8 * length octets.now }
    requires small { from + width < 2 ^ 40 }
    ensures { result ≡ number (take width (drop from (bits octets.now))) }
{
    let mut value: u64 = 0;
    for k in 0..width {
        value = 2 * value + bit_at(octets, from + k as usize);
    }
    value
}

// One bit as a number.
fn bit_at(octets: &[u8], at: usize) -> u64
    requires { at < 8 * length octets.now }
    ensures { result ≡ number (take 1 (drop at (bits octets.now))) }
{
    let octet = octets[at / 8];
    u64::from((octet >> (7 - at % 8)) % 2)
}

// Eight octets from place `i` on, as the number that their bits spell.
#[inline]
fn load(octets: &[u8], i: usize) -> u64
    requires { i + 8 ≤ length octets.now }
    ensures { field result 64 ≡ bits (take 8 (drop i octets.now)) }
{
    u64::from_be_bytes([
        octets[i],
        octets[i + 1],
        octets[i + 2],
        octets[i + 3],
        octets[i + 4],
        octets[i + 5],
        octets[i + 6],
        octets[i + 7],
    ])
}

// Writes the 64 bits of `word` into eight octets from place `i` on.
#[inline]
fn store(octets: &mut [u8], i: usize, word: u64)
    requires { i + 8 ≤ length octets.old }
    ensures { take (8 * (i + 8)) (bits octets.new) ≡ take (8 * i) (bits octets.old) ++ field word 64 }
{
    for k in 0..8 {
        octets[i + k] = ((word >> (56 - 8 * k)) % 256) as u8;
    }
}

/// Writes the last `width` bits of `value` behind the first `at` bits, and zeros to the end of their last octet.
/// At most 56 bits; eight octets must be left from the one in which the run begins.
#[inline]
pub fn put(octets: &mut [u8], at: usize, value: u64, width: u32)
    requires width { width ≤ 56 }
    requires fits { value < 2 ^ width }
    requires room { at / 8 + 8 ≤ length octets.old }
    ensures { take (whole (at + width)) (bits octets.new)
        ≡ filled_up (take at (bits octets.old) ++ field value width) }
{
    let shift = (at % 8) as u32;
    let kept = kept_bits(octets, at);
    let run = (kept << 56) + (value << (56 - width));
    store(octets, at / 8, run << (8 - shift));
}

// The bits before place `at` in its octet.
#[inline]
fn kept_bits(octets: &[u8], at: usize) -> u64
    requires { at / 8 < length octets.now }
    ensures below { result < 2 ^ (at % 8) }
    ensures kept { take at (bits octets.now) ≡ take (8 * (at / 8)) (bits octets.now) ++ field result (at % 8) }
{
    u64::from(octets[at / 8]) >> (8 - at % 8)
}

/// Copies `len` bits from bit `from` of `source` on behind the first `at` bits of `octets`, and writes zeros to
/// the end of their last octet. Eight octets must be left behind the last bit written.
pub fn copy_run(octets: &mut [u8], at: usize, source: &[u8], from: usize, len: usize)
    requires room { at + len + 64 ≤ 8 * length octets.old }
    requires inside { from + len ≤ 8 * length source.now }
    requires small { (at + len < 2 ^ 40) × (from + len < 2 ^ 40) }
    requires clean { take (whole at) (bits octets.old) ≡ filled_up (take at (bits octets.old)) }
    ensures { take (whole (at + len)) (bits octets.new)
        ≡ filled_up (take at (bits octets.old) ++ take len (drop from (bits source.now))) }
{
    let mut done = len.min(56 - at % 8);
    copy_piece(octets, at, source, from, done);
    // from here on the place is at the beginning of an octet; where 72 bits are left, so are nine octets
    while len - done >= 72 {
        copy_word(octets, at + done, source, from + done);
        done += 64;
    }
    while done < len {
        let width = (len - done).min(56);
        copy_piece(octets, at + done, source, from + done, width);
        done += width;
    }
}

// The same for a run of at most 56 bits, which ends in the eighth octet from the one in which it begins.
#[inline]
fn copy_piece(octets: &mut [u8], at: usize, source: &[u8], from: usize, len: usize)
    requires short { at % 8 + len ≤ 56 }
    requires room { at / 8 + 8 ≤ length octets.old }
    requires inside { from + len ≤ 8 * length source.now }
    requires small { from + len < 2 ^ 40 }
    ensures { take (whole (at + len)) (bits octets.new)
        ≡ filled_up (take at (bits octets.old) ++ take len (drop from (bits source.now))) }
{
    let width = len as u32;
    let run = number_at(source, from, width);
    put(octets, at, run, width);
}

// The same for 64 bits, where `at` is the beginning of an octet.
#[inline]
fn copy_word(octets: &mut [u8], at: usize, source: &[u8], from: usize)
    requires whole { at % 8 ≡ 0 }
    requires room { at / 8 + 8 ≤ length octets.old }
    requires inside { from / 8 + 9 ≤ length source.now }
    ensures { take (whole (at + 64)) (bits octets.new)
        ≡ filled_up (take at (bits octets.old) ++ take 64 (drop from (bits source.now))) }
{
    let word = long_word_at(source, from);
    store(octets, at / 8, word);
}

// The 64 bits from bit `from` on: those that one load holds of them, and the rest in the octet behind it. Made so, and
// not of two halves, the word is stored at once.
#[inline]
fn long_word_at(octets: &[u8], from: usize) -> u64
    requires { from / 8 + 9 ≤ length octets.now }
    ensures { field result 64 ≡ take 64 (drop from (bits octets.now)) }
{
    let first = load(octets, from / 8);
    let rest = u64::from(octets[from / 8 + 8]) >> (8 - from % 8);
    (first << (from % 8)) + rest
}
