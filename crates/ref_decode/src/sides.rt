//! The sides of a picture's planes, and where a macroblock stands (H.261, 3.1, 4.2.2 and 4.2.3).

ghost use Rattle.std.specs.Prelude.{◌≡◌, ℕ, ◌≤◌, true};
ghost use Rattle.pel_model.specs.Records.{Across, Down};
ghost use Rattle.pel_model.specs.Valid.{side, corner};
ghost use Rattle.ref_decode.specs.Shown.{sample_count};

use pel_model::Format;

/// The luminance samples in a row and in a column.
pub fn luminance_sides(format: Format) -> (usize, usize)
    ensures { result ≡ (side format Across, side format Down) }
{
    match format {
        Format::Qcif => (176, 144),
        Format::Cif => (352, 288),
    }
}

/// The samples of all three planes.
pub fn sample_count(format: Format) -> usize
    ensures { result ≡ sample_count format }
{
    match format {
        Format::Qcif => 38_016,
        Format::Cif => 152_064,
    }
}

/// The column and the row of a macroblock's first luminance sample, by the number of its group and its address.
pub fn corner(group: u8, address: u8) -> (usize, usize)
    ensures { result ≡ (corner Across group address, corner Down group address) }
{
    let group = usize::from(group.saturating_sub(1));
    let address = usize::from(address.saturating_sub(1));
    (
        176 * (group % 2) + 16 * (address % 11),
        48 * (group / 2) + 16 * (address / 11),
    )
}
