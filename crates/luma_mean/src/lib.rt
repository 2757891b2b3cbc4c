// The mean of a luma plane (RULES 12.2).
#![tactic(auto)]

ghost use Rattle.std.specs.Prelude.{◌≡◌, ◌*◌, ◌/◌, ◌≤◌, length};
ghost use Rattle.luma_mean.specs.Mean.{sum};

// A plane has at most 16,384 pixels a side, so a sum needs 36 bits.
fn sum_bytes(luma: &[u8]) -> u64
    requires { length luma.now ≤ 16384 * 16384 }
    ensures { (result ≡ sum luma.now) × (result ≤ 255 * length luma.now) }
{
    luma.iter().map(|&byte| u64::from(byte)).sum()
}

// The mean of a plane's bytes, rounded down.
pub fn mean_luma(luma: &[u8]) -> u8
    requires { (1 ≤ length luma.now) × (length luma.now ≤ 16384 * 16384) }
    ensures { result ≡ sum luma.now / length luma.now }
{
    let total = sum_bytes(luma);
    (total / luma.len() as u64) as u8
}
