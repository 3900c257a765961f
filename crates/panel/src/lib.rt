// The rounding as a C function of its own, for whoever tries what the wall panel says (docs/rounding.md).
#![tactic(auto)]

ghost use Rattle.std.specs.Prelude.{◌≡◌};
ghost use Rattle.rounding.specs.Rounding.{round_away};

// num / den to the nearest whole number, ties away from zero; with den 0, 0.
#[unsafe(no_mangle)]
pub extern "C" fn windshear_round(num: i64, den: u64) -> i64
    ensures { result ≡ round_away num den }
{
    rounding::round(num, den)
}
