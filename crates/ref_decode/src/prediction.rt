//! What a block is predicted from: the samples that its vector refers to, filtered where its kind says so (H.261, 3.2.2 and
//! 3.2.3).

ghost use Rattle.std.specs.Prelude.{◌≡◌, ℕ, ◌+◌, ◌-◌, ◌*◌, ◌^◌, ◌/◌, ◌%◌, ◌<◌, ◌≤◌, min, ◌⊎◌, pos, ◌+ℤ◌, length, slice_index};
ghost use Rattle.pel_model.specs.Decode.{sample};
ghost use Rattle.pel_model.specs.Prediction.{moved_by, weighted, filtered};
ghost use Rattle.ref_decode.specs.Blocks.{IsRowAt, block_at, filtered_if, joined_at};

/// A column or row moved by a component of a vector, which is divided by `by` towards zero. It stays 8 samples before the
/// end of a side, which a vector into the picture area never passes.
pub fn moved(from: usize, component: i8, by: usize, side: usize) -> usize
    requires small { (from < 1000) × (8 ≤ side) × (side < 1000) }
    requires by { (0 < by) × (by < 3) }
    ensures { result ≡ min (moved_by by component from) (side - 8) }
{
    let steps = usize::from(component.unsigned_abs()) / by;
    let to = if component < 0 {
        from.saturating_sub(steps)
    } else {
        from + steps
    };
    to.min(side - 8)
}

/// The samples of the block whose top left sample stands at `from`, filtered or as they are.
pub fn predicted(samples: &[u8], from: usize, width: usize, filter: bool) -> [u8; 64]
    requires small { (from < 2 ^ 20) × (width < 2 ^ 10) }
    requires within { from + 7 * width + 8 ≤ length samples.now }
    ensures { (x y : ℕ) → x < 8 → y < 8 → block_at result x y
        ≡ filtered_if filter (λ a b. slice_index samples.now (from + width * b + a)) x y }
{
    let block = copied(samples, from, width);
    if filter { smoothed(&block) } else { block }
}

fn copied(samples: &[u8], from: usize, width: usize) -> [u8; 64]
    requires small { (from < 2 ^ 20) × (width < 2 ^ 10) }
    requires within { from + 7 * width + 8 ≤ length samples.now }
    ensures { (x y : ℕ) → x < 8 → y < 8 → block_at result x y ≡ slice_index samples.now (from + width * y + x) }
{
    let mut block = [0; 64];
    for y in 0..8 {
        copy_row(&mut block, y, samples, from + width * y);
    }
    block
}

// Copies eight samples into a row of a block.
fn copy_row(block: &mut [u8; 64], y: usize, samples: &[u8], from: usize)
    requires { IsRowAt y from (length samples.now) }
    ensures inside { (x : ℕ) → x < 8 → block_at block.new x y ≡ slice_index samples.now (from + x) }
    ensures before { (k : ℕ) → k < 8 * y → slice_index block.new k ≡ slice_index block.old k }
{
    for x in 0..8 {
        block[8 * y + x] = samples[from + x];
    }
}

// The loop filter in both directions, rounded once.
fn smoothed(block: &[u8; 64]) -> [u8; 64]
    ensures { (x y : ℕ) → x < 8 → y < 8 → block_at result x y ≡ filtered (λ a b. block_at block.now a b) x y }
{
    let sums = smoothed_across(block);
    let mut filtered = [0; 64];
    for k in 0..64 {
        filtered[k] = down_at(&sums, k);
    }
    filtered
}

// Each row filtered, times 4.
fn smoothed_across(block: &[u8; 64]) -> [u16; 64]
    ensures value { (k : ℕ) → k < 64 → slice_index result k ≡ weighted (λ a. block_at block.now a (k / 8)) (k % 8) }
    ensures size { (k : ℕ) → k < 64 → slice_index result k ≤ 1020 }
{
    let mut sums = [0; 64];
    for k in 0..64 {
        sums[k] = across_at(block, k);
    }
    sums
}

fn across_at(block: &[u8; 64], k: usize) -> u16
    requires { k < 64 }
    ensures value { result ≡ weighted (λ a. block_at block.now a (k / 8)) (k % 8) }
    ensures size { result ≤ 1020 }
{
    let (x, y) = (k % 8, k / 8);
    let here = u16::from(block[8 * y + x]);
    if x == 0 || x == 7 {
        return 4 * here;
    }
    u16::from(block[8 * y + (x - 1)]) + 2 * here + u16::from(block[8 * y + (x + 1)])
}

fn down_at(sums: &[u16; 64], k: usize) -> u8
    requires place { k < 64 }
    requires small { (i : ℕ) → i < 64 → slice_index sums.now i ≤ 1020 }
    ensures { result ≡ (weighted (λ b. block_at sums.now (k % 8) b) (k / 8) + 8) / 16 }
{
    let (x, y) = (k % 8, k / 8);
    let here = sums[8 * y + x];
    let sum = if y == 0 || y == 7 {
        4 * here
    } else {
        sums[8 * (y - 1) + x] + 2 * here + sums[8 * (y + 1) + x]
    };
    ((sum + 8) / 16) as u8
}

/// Prediction and residual added, each sample clipped to 0..255.
pub fn joined(predicted: &[u8; 64], residual: &[i16; 64]) -> [u8; 64]
    ensures { (k : ℕ) → k < 64 → slice_index result k ≡ joined_at predicted.now residual.now k }
{
    let mut samples = [0; 64];
    for k in 0..64 {
        samples[k] = clip(predicted[k], residual[k]);
    }
    samples
}

fn clip(predicted: u8, residual: i16) -> u8
    ensures { result ≡ sample (pos predicted +ℤ residual) }
{
    let sum = i32::from(predicted) + i32::from(residual);
    if sum < 0 {
        return 0;
    }
    if sum > 255 {
        return 255;
    }
    sum as u8
}

/// Writes a block, with its top left sample at `from`.
pub fn put_block(samples: &mut [u8], from: usize, width: usize, block: &[u8; 64])
    requires small { (from < 2 ^ 20) × (width < 2 ^ 10) × (8 ≤ width) }
    requires within { from + 7 * width + 8 ≤ length samples.old }
    ensures inside { (x y : ℕ) → x < 8 → y < 8 →
        slice_index samples.new (from + width * y + x) ≡ block_at block.now x y }
    ensures outside { (k : ℕ) → ((y : ℕ) → y < 8 → (k < from + width * y) ⊎ (from + width * y + 8 ≤ k)) →
        slice_index samples.new k ≡ slice_index samples.old k }
    ensures long { length samples.new ≡ length samples.old }
{
    for y in 0..8 {
        put_row(samples, from + width * y, block, y);
    }
}

// Writes a row of a block.
fn put_row(samples: &mut [u8], from: usize, block: &[u8; 64], y: usize)
    requires { IsRowAt y from (length samples.old) }
    ensures inside { (x : ℕ) → x < 8 → slice_index samples.new (from + x) ≡ block_at block.now x y }
    ensures before { (k : ℕ) → k < from → slice_index samples.new k ≡ slice_index samples.old k }
    ensures behind { (k : ℕ) → from + 8 ≤ k → slice_index samples.new k ≡ slice_index samples.old k }
    ensures long { length samples.new ≡ length samples.old }
{
    for x in 0..8 {
        samples[from + x] = block[8 * y + x];
    }
}
