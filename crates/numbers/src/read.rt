// Numbers from text, of any number of digits (02, A3): cut at a million, so that nothing overflows. None: the text is no number.
ghost use Rattle.std.specs.Prelude.{Option, Some, List, cond, ◌≡◌, ◌+◌, ◌*◌, ◌≤◌, ◌<◌, ltb, drop, ℕ};
ghost use Rattle.std.specs.Fn.{FnReturnsAt};
ghost use Rattle.numbers.specs.Number.{digits_from, whole_size, knots_size, cut_size, minus, sign_length, with_sign, whole_of, knots_of, number_limit, cut_number};

// Numbers are cut here: beyond every range that is tested.
const LIMIT: u32 = 1000000;

// One digit more. From the limit on nothing is added: the number is cut there.
fn longer(n: u32, digit: u32) -> u32
    requires { (n < 10 * number_limit) × (digit < 10) }
    ensures { result ≡ cond (ltb n number_limit) (10 * n + digit) n }
{
    if n < LIMIT { 10 * n + digit } else { n }
}

// The number that the digits s spell after the number `start`, tested and summed in one loop.
fn digits(s: &[u8], start: u32) -> Option<u32>
    requires { start ≤ number_limit }
    ensures { result ≡ cut_size (digits_from start s.now) }
{
    let mut n = start;
    for b in s {
        if !b.is_ascii_digit() {
            return None;
        }
        n = longer(n, (*b - b'0') as u32);
    }
    Some(n.min(LIMIT))
}

fn whole_size(u: &[u8]) -> Option<u32>
    ensures { result ≡ cut_size (whole_size u.now) }
{
    if u.is_empty() {
        return None;
    }
    digits(u, 0)
}

#[tactic(auto, using(crate::proofs::SizeLaws::knots_short, crate::proofs::SizeLaws::no_point))]
fn knots_size(u: &[u8]) -> Option<u32>
    ensures { result ≡ cut_size (knots_size u.now) }
{
    let n = u.len();
    if n < 4 {
        return None;
    }
    if u[n - 3] != b'.' {
        return None;
    }
    let front = digits(&u[..n - 3], 0)?;
    digits(&u[n - 2..], front)
}

// Whether a text has a minus, and what stands after its sign.
#[tactic(auto, unfolding(crate::specs::Number::sign_length))]
fn signed(s: &[u8]) -> (bool, &[u8])
    ensures negative { result.0 ≡ minus s.now }
    ensures rest { result.1.now ≡ drop (sign_length s.now) s.now }
{
    match s {
        [b'+', u @ ..] => (false, u),
        [b'-', u @ ..] => (true, u),
        _ => (false, s),
    }
}

// A number by whether it has a minus and by how its size is read, which is cut and so has an opposite.
// kept: a flag, as `with_sign` of Number.antt takes the sign that `signed` found.
fn number<F: Fn(&[u8]) -> Option<u32>>(negative: bool, u: &[u8], size: F) -> Option<i32>
    requires called { F.IsAlwaysCallable size }
    requires small { (u : List ℕ) (n : ℕ) → FnReturnsAt F.Fn size u (Some n) → n ≤ number_limit }
    ensures { (z : Option ℕ) × FnReturnsAt F.Fn size u.now z × (result ≡ with_sign negative z) }
{
    let n = size(u)? as i32;
    Some(if negative { -n } else { n })
}

// A whole number.
pub fn whole(s: &[u8]) -> Option<i32>
    ensures { result ≡ cut_number (whole_of s.now) }
{
    let (negative, u) = signed(s);
    number(negative, u, whole_size)
}

// A speed in knots, as hundredths.
// kept: beside `whole`, which differs in how the size is read; one function over both would take as many lines.
pub fn knots(s: &[u8]) -> Option<i32>
    ensures { result ≡ cut_number (knots_of s.now) }
{
    let (negative, u) = signed(s);
    number(negative, u, knots_size)
}
