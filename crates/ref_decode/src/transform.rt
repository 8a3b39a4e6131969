//! The inverse transform in two passes: each row of coefficients, then each column of what the rows gave. Coefficients that
//! are 0 cost nothing.

ghost use Rattle.std.specs.Prelude.{◌≡◌, ℕ, ◌+◌, ◌*◌, ◌^◌, ◌<◌, ◌≤◌, pos, negsuc, ◌+ℤ◌, ◌*ℤ◌, length, slice_index_or, unsigned_abs};
ghost use Rattle.pel_model.specs.Transform.{clipped, fixed as fixed_transform};
ghost use Rattle.ref_decode.specs.Passes.{at_place, by_rows, by_columns, combination, rounded};

/// The kernel, a row for each index and a column for each place in the block.
static ROWS: [i32; 64] = [
    2896, 2896, 2896, 2896, 2896, 2896, 2896, 2896, //
    4017, 3406, 2276, 799, -799, -2276, -3406, -4017, //
    3784, 1567, -1567, -3784, -3784, -1567, 1567, 3784, //
    3406, -799, -4017, -2276, 2276, 4017, 799, -3406, //
    2896, -2896, -2896, 2896, 2896, -2896, -2896, 2896, //
    2276, -4017, 799, 3406, -3406, -799, 4017, -2276, //
    1567, -3784, 3784, -1567, -1567, 3784, -3784, 1567, //
    799, -2276, 3406, -4017, 4017, -3406, 2276, -799,
];

/// The kernel with a row for each place in the block.
static COLUMNS: [i32; 64] = [
    2896, 4017, 3784, 3406, 2896, 2276, 1567, 799, //
    2896, 3406, 1567, -799, -2896, -4017, -3784, -2276, //
    2896, 2276, -1567, -4017, -2896, 799, 3784, 3406, //
    2896, 799, -3784, -2276, 2896, 3406, -1567, -4017, //
    2896, -799, -3784, 2276, 2896, -3406, -1567, 4017, //
    2896, -2276, -1567, 4017, -2896, -799, 3784, -3406, //
    2896, -3406, 1567, 799, -2896, 4017, -3784, 2276, //
    2896, -4017, 3784, -3406, 2896, -2276, 1567, -799,
];

/// What a block adds to its prediction, row by row, -256 to 255: the inverse transform of its coefficients, that of the
/// horizontal index u and the vertical index v at 8 v + u. Each coefficient lies from -2048 to 2048.
pub fn fixed(coefs: &[i32; 64]) -> [i16; 64]
    requires { (k : ℕ) → k < 64 → unsigned_abs (slice_index_or coefs.now k (pos 0)) ≤ 2048 }
    ensures { (x y : ℕ) → x < 8 → y < 8 → slice_index_or result (8 * y + x) (pos 0)
        ≡ clipped (negsuc 255) (pos 255) (fixed_transform coefs.now x y) }
{
    in_two_passes(coefs, &ROWS, &COLUMNS)
}

fn in_two_passes(coefs: &[i32; 64], by_row: &[i32; 64], by_column: &[i32; 64]) -> [i16; 64]
    requires coefs { (k : ℕ) → k < 64 → unsigned_abs (at_place coefs.now k) ≤ 2048 }
    requires rows { by_row.now ≡ by_rows }
    requires columns { by_column.now ≡ by_columns }
    ensures { (x y : ℕ) → x < 8 → y < 8 → at_place result (8 * y + x)
        ≡ clipped (negsuc 255) (pos 255) (fixed_transform coefs.now x y) }
{
    let used = used_rows(coefs);
    let mut rows = [0; 64];
    for v in 0..used {
        let row = combined(coefs, 8 * v, by_row, 8);
        put_row(&mut rows, v, &row);
    }
    let mut residual = [0; 64];
    for y in 0..8 {
        let line = combined(by_column, 8 * y, &rows, used);
        put_line(&mut residual, y, &line);
    }
    residual
}

// How many rows of eight there are up to the last that is not 0.
fn used_rows(coefs: &[i32; 64]) -> usize
    ensures within { result ≤ 8 }
    ensures zeros { (k : ℕ) → 8 * result ≤ k → k < 64 → at_place coefs.now k ≡ pos 0 }
{
    let mut count = 64;
    while count > 0 && coefs[count - 1] == 0 {
        count -= 1;
    }
    (count + 7) / 8
}

// So many factors from a place on, each times its row of the table, summed.
fn combined(factors: &[i32; 64], from: usize, table: &[i32; 64], count: usize) -> [i64; 8]
    requires within { (from + count ≤ 64) × (count ≤ 8) }
    requires small { (k x : ℕ) → k < count → x < 8 →
        unsigned_abs (at_place factors.now (from + k) *ℤ at_place table.now (8 * k + x)) ≤ 2 ^ 57 }
    ensures { (x : ℕ) → x < 8 → at_place result x ≡ combination factors.now from table.now count x }
{
    let mut sums = [0; 8];
    for k in 0..count {
        let by = factors[from + k];
        if by != 0 {
            add_scaled(&mut sums, by, table, 8 * k);
        }
    }
    sums
}

// Adds eight entries of the table, each times `by`.
fn add_scaled(sums: &mut [i64; 8], by: i32, table: &[i32; 64], from: usize)
    requires within { from + 8 ≤ 64 }
    requires small { (x : ℕ) → x < 8 → unsigned_abs (at_place sums.old x) ≤ 2 ^ 60 }
    ensures { (x : ℕ) → x < 8 → at_place sums.new x ≡ at_place sums.old x +ℤ by *ℤ at_place table.now (from + x) }
{
    for x in 0..8 {
        sums[x] = plus(sums[x], product(by, table[from + x]));
    }
}

fn product(a: i32, b: i32) -> i64
    ensures value { result ≡ a *ℤ b }
    ensures size { unsigned_abs result ≤ 2 ^ 62 }
{
    i64::from(a) * i64::from(b)
}

fn plus(a: i64, b: i64) -> i64
    requires { unsigned_abs a + unsigned_abs b < 2 ^ 63 }
    ensures { result ≡ a +ℤ b }
{
    a + b
}

// Writes one row.
fn put_row(rows: &mut [i32; 64], v: usize, row: &[i64; 8])
    requires within { v < 8 }
    requires small { (x : ℕ) → x < 8 → unsigned_abs (at_place row.now x) < 2 ^ 31 }
    ensures inside { (x : ℕ) → x < 8 → at_place rows.new (8 * v + x) ≡ at_place row.now x }
    ensures before { (k : ℕ) → k < 8 * v → at_place rows.new k ≡ at_place rows.old k }
{
    for x in 0..8 {
        rows[8 * v + x] = row[x] as i32;
    }
}

// Writes one line of the block, each sum rounded.
fn put_line(residual: &mut [i16; 64], y: usize, sums: &[i64; 8])
    requires within { y < 8 }
    requires small { (x : ℕ) → x < 8 → unsigned_abs (at_place sums.now x) ≤ 2 ^ 60 }
    ensures inside { (x : ℕ) → x < 8 → at_place residual.new (8 * y + x) ≡ rounded (at_place sums.now x) }
    ensures before { (k : ℕ) → k < 8 * y → at_place residual.new k ≡ at_place residual.old k }
{
    for x in 0..8 {
        residual[8 * y + x] = round(sums[x]);
    }
}

// A sum divided by 2^26, halves up, and clipped to -256..255.
fn round(sum: i64) -> i16
    requires { unsigned_abs sum ≤ 2 ^ 60 }
    ensures { result ≡ rounded sum }
{
    let whole = plus(sum, 1 << 25) >> 26;
    if whole < -256 {
        return -256;
    }
    if whole > 255 {
        return 255;
    }
    whole as i16
}
