// Shear, its change of wind divided over frames (01, "Shear"; 02, A6).
ghost use Rattle.std.specs.Prelude.{◌≡◌, ◌≤◌, pos, nat_abs, ◌≤ℤ◌};
ghost use Rattle.rules.specs.Rules.{held_shear};

// The held shear of an accepted sample, from its change of along wind, the n frames that this is divided over, its vertical wind and its airspeed.
// kept: four numbers and not an Accepted, which would ask more of callers: the other fields in range
pub fn held(change: i32, n: u16, vertical: i32, airspeed: i32) -> i32
    requires { (nat_abs change ≤ 40000) × (nat_abs vertical ≤ 10000) × (pos 6000 ≤ℤ airspeed) × (nat_abs airspeed ≤ 60000) × (1 ≤ n) × (n ≤ 20) }
    ensures { (result ≡ held_shear change n vertical airspeed) × (nat_abs result ≤ 50000000) }
{
    let a = airspeed as i64;
    let over = 1765197 * n as i64;
    let num = ((change as i64) * 18520 * a - (vertical as i64) * over) * 100000;
    let den = (over * a) as u64;
    rounding::round(num, den) as i32
}
