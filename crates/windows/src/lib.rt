// The windows: a ring of the last two hundred entries, and a running sum for each window (01, "The six windows"; 02, A1 and A9).
#![tactic(auto)]

ghost use Rattle.std.specs.Prelude.{◌≡◌, ◌*◌, ◌≤◌, ◌<◌, pos, nat_abs, length, get_or, set, take};
ghost use Rattle.rounding.specs.Cut.{cut};
ghost use Rattle.rounding.specs.Fraction.{sum_ℤ};
ghost use Rattle.rules.specs.Rules.{entry_limit, row};
ghost use Rattle.windows.specs.Ring.{back_of, on_of, read_from, moved_of, moved_sums, sums_of, SumsWithin, reached, met_of};

// The sums of the six windows, the longest first.
#[repr(C)]
#[derive(Clone, Copy, Debug, Default, PartialEq, Eq)]
pub struct Sums {
    pub s200: i64,
    pub s180: i64,
    pub s160: i64,
    pub s140: i64,
    pub s120: i64,
    pub s100: i64,
}

// What a held shear enters into the windows: itself, cut to between -34,500 and 34,500 (02, A1).
#[tactic(auto, using(rounding::proofs::CutLaws::cut_le), unfolding(rounding::specs::Cut::cut))]
pub fn entry(shear: i32) -> i32
    ensures { result ≡ cut entry_limit shear }
{
    rounding::cut(i64::from(shear), 34500) as i32
}

// One place back, round: where the next entry goes.
#[tactic(auto, unfolding(crate::specs::Ring::back_of))]
pub fn back(p: usize) -> usize
    requires { p < 200 }
    ensures { (result ≡ back_of p) × (result < 200) }
{
    if p == 0 { 199 } else { p - 1 }
}

// The ring of the last two hundred entries: the newest stands at its place, and each older one a place on, round.
#[derive(Clone, Copy)]
pub struct Ring<'a> {
    pub held: &'a [i32; 200],
    pub place: usize,
    ghost whole: { length held.now ≡ 200 },
    ghost on_ring: { place < 200 },
}

impl<'a> Ring<'a> {
    // Where the entry stands that came in n before the newest.
    #[inline(always)]
    #[tactic(auto, unfolding(crate::specs::Ring::on_of))]
    fn on(self, n: usize) -> usize
        requires { n < 200 }
        ensures { (result ≡ on_of self.entry.place n) × (result < 200) }
    {
        let i = self.place + n;
        if i < 200 { i } else { i - 200 }
    }

    // That entry.
    #[inline(always)]
    fn at(self, n: usize) -> i32
        requires { n < 200 }
        ensures { result ≡ get_or (read_from self.entry.place self.entry.held.now) n (pos 0) }
    {
        self.held[self.on(n)]
    }

    // The sum of the window of n as x enters: it gains x, and loses the entry that was its oldest.
    #[inline(always)]
    #[tactic(auto, unfolding(crate::specs::Ring::moved_of))]
    fn moved(self, sum: i64, x: i32, n: usize) -> i64
        requires { (nat_abs sum ≤ 10000000000) × (0 < n) × (n ≤ 200) }
        ensures { result ≡ moved_of n (read_from self.entry.place self.entry.held.now) x sum }
    {
        sum + i64::from(x) - i64::from(self.at(n - 1))
    }

    // The sum of the newest n, from that of the newest m; an entry is at most 2,147,483,648 in size.
    fn sum_on(self, m: usize, sum: i64, n: usize) -> i64
        requires { (m ≤ n) × (n ≤ 200) × (sum ≡ sum_ℤ (take m (read_from self.place self.held.now))) × (nat_abs sum ≤ m * 2147483648) }
        ensures { (result ≡ sum_ℤ (take n (read_from self.entry.place self.entry.held.now))) × (nat_abs result ≤ n * 2147483648) }
    {
        let mut sum = sum;
        for i in m..n {
            sum += i64::from(self.at(i));
        }
        sum
    }

    // The six sums anew.
    pub fn sums(self) -> Sums
        ensures { result ≡ sums_of (read_from self.entry.place self.entry.held.now) }
    {
        let s100 = self.sum_on(0, 0, 100);
        let s120 = self.sum_on(100, s100, 120);
        let s140 = self.sum_on(120, s120, 140);
        let s160 = self.sum_on(140, s140, 160);
        let s180 = self.sum_on(160, s160, 180);
        Sums {
            s200: self.sum_on(180, s180, 200),
            s180,
            s160,
            s140,
            s120,
            s100,
        }
    }
}

// x is stored one place before p, round; returned is what the six sums become.
// kept: the entries and the place side by side, as a Ring is read only and this writes; six lines, as C fixes the fields of Sums.
#[tactic(auto, unfolding(crate::specs::Ring::moved_sums))]
pub fn enter(sums: Sums, p: usize, held: &mut [i32; 200], x: i32) -> Sums
    requires { SumsWithin sums × (p < 200) }
    ensures { (result ≡ moved_sums (read_from p held.old) x sums) × (held.new ≡ set held.old (back_of p) x) }
{
    let ring = Ring {
        held: &*held,
        place: p,
    };
    let next = Sums {
        s200: ring.moved(sums.s200, x, 200),
        s180: ring.moved(sums.s180, x, 180),
        s160: ring.moved(sums.s160, x, 160),
        s140: ring.moved(sums.s140, x, 140),
        s120: ring.moved(sums.s120, x, 120),
        s100: ring.moved(sums.s100, x, 100),
    };
    held[back(p)] = x;
    next
}

// Whether a window's sum, or its opposite, reaches samples × value.
// kept: a flag here and in `met`, as `reached` and `met_of` of Ring.antt are asked upward or downward.
fn reaches(sum: i64, samples: u32, value: u32, up: bool) -> bool
    requires { (samples ≤ 200) × (value ≤ 100000) }
    ensures { result ≡ reached up (row samples value) sum }
{
    let limit = i64::from(samples * value);
    if up { limit <= sum } else { sum <= -limit }
}

impl Sums {
    // Whether some window is met, upward or downward.
    pub fn met(self, up: bool) -> bool
        ensures { result ≡ met_of up self }
    {
        reaches(self.s200, 200, 10500, up)
            || reaches(self.s180, 180, 11660, up)
            || reaches(self.s160, 160, 13110, up)
            || reaches(self.s140, 140, 14990, up)
            || reaches(self.s120, 120, 17480, up)
            || reaches(self.s100, 100, 21000, up)
    }
}
