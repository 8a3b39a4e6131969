//! What the format of a picture decides: its groups of blocks with their numbers (H.261, 4.2.2) and its greatest number of
//! bits (5.2).

ghost use Rattle.std.specs.Prelude.{◌≡◌, ◌-◌, ◌*◌, ◌<◌, ◌≤◌, true, slice_index};
ghost use Rattle.pel_model.specs.Grammar.{is_group};
ghost use Rattle.pel_model.specs.Headers.{group_header_length};
ghost use Rattle.pel_model.specs.Valid.{group_numbers, group_count, limit};

use pel_model::Format;

/// The number of bits of a group header: GBSC, GN, GQUANT and a GEI of 0 (4.2.2).
const GROUP_HEADER_BITS: u32 = 26;

/// The greatest number of bits of a picture.
pub fn longest(format: Format) -> u32
    ensures { result ≡ limit format }
{
    match format {
        Format::Qcif => 65_536,
        Format::Cif => 262_144,
    }
}

/// How many groups a picture has.
pub fn group_count(format: Format) -> usize
    ensures { result ≡ group_count format }
{
    match format {
        Format::Qcif => 3,
        Format::Cif => 12,
    }
}

/// The last place at which an element may end, where so many groups were begun.
pub fn last_end(format: Format, begun: u32) -> u32
    ensures { result ≡ limit format - group_header_length * (group_count format - begun) }
{
    let groups = group_count(format) as u32;
    longest(format) - GROUP_HEADER_BITS * groups.saturating_sub(begun)
}

/// Whether this is the number of a group: 1, 3 or 5 in QCIF, 1 to 12 in CIF.
pub fn is_group(format: Format, number: u8) -> bool
    ensures { result ≡ is_group format number }
{
    match format {
        Format::Qcif => matches!(number, 1 | 3 | 5),
        Format::Cif => 1 <= number && number <= 12,
    }
}

/// The number of a group, by its place from 0 on.
pub fn group_number(format: Format, place: usize) -> u8
    requires { place < group_count format }
    ensures { result ≡ slice_index (group_numbers format) place }
{
    match format {
        Format::Qcif => [1, 3, 5][place],
        Format::Cif => [1, 2, 3, 4, 5, 6, 7, 8, 9, 10, 11, 12][place],
    }
}

/// The place of a group, from 0 on, by its number.
pub fn group_place(format: Format, number: u8) -> usize
    requires { is_group format number ≡ true }
    ensures there { result < group_count format }
    ensures number { slice_index (group_numbers format) result ≡ number }
{
    match format {
        Format::Qcif => usize::from(number) / 2,
        Format::Cif => usize::from(number) - 1,
    }
}
