// One rule: a fraction to the nearest whole number, ties away from zero (01, "Shear"); and a number cut at a bound either way (02, A1).
#![tactic(auto)]

ghost use Rattle.std.specs.Prelude.{◌≡◌, ◌≤◌, ◌^◌, pos, neg_ℤ};
ghost use Rattle.rounding.specs.Cut.{cut};
ghost use Rattle.rounding.specs.Rounding.{round_away};

// A size with a minus sign, down to the least i64. It is turned by modular arithmetic, as a size of 2^63 is no i64.
fn minus(size: u64) -> i64
    requires { size ≤ 2 ^ 63 }
    ensures { result ≡ neg_ℤ (pos size) }
{
    size.wrapping_neg().cast_signed()
}

// num / den to the nearest whole number, ties away from zero. With den 0 there is no fraction, and the answer is 0. A size is at most 2^63 and half of
// den is below that, so their sum fits.
#[tactic(auto, using(crate::proofs::Rounding::round_over_zero))]
pub fn round(num: i64, den: u64) -> i64
    ensures { result ≡ round_away num den }
{
    if den == 0 {
        return 0;
    }
    // take the size
    let size = num.unsigned_abs();
    // round it half up: add half of den, divide, drop the remainder
    let rounded = (size + den / 2) / den;
    // put the sign back
    if num < 0 {
        minus(rounded)
    } else {
        rounded as i64
    }
}

// A number cut to between -most and most.
#[tactic(auto, unfolding(crate::specs::Cut::cut))]
pub fn cut(x: i64, most: u32) -> i64
    ensures { result ≡ cut most x }
{
    let bound = i64::from(most);
    x.clamp(-bound, bound)
}
