// The windshear unit, a state in and a state out (01, "A sample" to "Escape pitch").
#![tactic(auto)]

ghost use Rattle.std.specs.Prelude.{◌≡◌, true};
ghost use Rattle.alerts.specs.Counters.{GuideValid};
ghost use Rattle.frames.specs.Frames.{frames_fit};
ghost use Rattle.rules.specs.Needs.{InRange};
ghost use Rattle.rules.specs.Refusal.{number_of};
ghost use Rattle.unit_core.specs.Core.{frames_of, lamps_of, voice_of, guide_of, pitch_of};
ghost use Rattle.unit.specs.Steps.{beside, fresh_state, entry_fits, RingValid, Valid, push_of, push_times, windows_of, accept_of, refusal_of, PlainPromise};

mod ranges;

use rules::refusal::Refusal;
use rules::{Accepted, Sample};
use unit_core::{Answer, Core};

// The unit's state: the last two hundred entries (held shears, cut) as a ring, the newest at the core's place and each older one a place on, round;
// and the core.
#[repr(C)]
#[derive(Clone, Copy)]
pub struct State {
    pub held: [i32; 200],
    pub core: Core,
}

#[repr(C)]
#[derive(Clone, Copy)]
pub struct Offered {
    pub answer: Answer,
    pub state: State,
}

// What an accepted sample of a run is answered, and the core after it; its ring is lent.
#[derive(Clone, Copy, Debug, PartialEq, Eq)]
pub struct Stepped {
    pub answer: Answer,
    pub core: Core,
}

// An entry that comes into the ring.
// kept: here and below the ring is lent beside its core, as a run and a listing hold the two: 01, "The form for each place".
fn pushed(mut core: Core, held: &mut [i32; 200], entry: i32) -> Core
    requires { RingValid (beside held.old core) }
    ensures { beside held.new result ≡ push_of (beside held.old core) entry }
{
    let p = core.place as usize;
    core.sums = windows::enter(core.sums, p, held, entry);
    core.place = windows::back(p) as u16;
    core
}

// The same entry n times.
#[inline(always)]
fn pushed_times(mut core: Core, held: &mut [i32; 200], entry: i32, n: u16) -> Core
    requires { RingValid (beside held.old core) × (entry_fits entry ≡ true) }
    ensures { beside held.new result ≡ push_times n (beside held.old core) entry }
{
    for _ in 0..n {
        core = pushed(core, held, entry);
    }
    core
}

// "Outside the band the windows still fill": by what the sample enters, once for each of its n frames.
#[inline(always)]
fn entered(core: Core, held: &mut [i32; 200], s: Sample, n: u16, entry: i32) -> Core
    requires { RingValid (beside held.old core) × (entry_fits entry ≡ true) }
    ensures { beside held.new result ≡ windows_of (beside held.old core) s n entry }
{
    let filled = pushed_times(core, held, entry, n);
    Core {
        sums: filled.sums,
        place: filled.place,
        along: s.along,
        frame: s.frame,
        ..core
    }
}

// An accepted sample of a run or a listing: the ring is lent beside its core, nothing is tested, and no copy of the ring is made.
// kept: that no number fits is asked of two values, the state and the sample; a type of one can't say it.
// Inlined: a call makes a run a tenth slower.
#[inline(always)]
pub fn step(core: Core, held: &mut [i32; 200], s: Sample) -> Stepped
    requires { refusal_of (beside held.old core) s ≡ 0 }
    ensures { PlainPromise (beside held.old core) s result.answer (beside held.new result.core) }
{
    let n = core.frames(s);
    let accepted = Accepted {
        sample: s,
        frames: n,
    };
    let x = core.shear(accepted);
    let entry = windows::entry(x);
    let filled = entered(core, held, s, n, entry);
    let lit = filled.lamps(s.height, n);
    let spoken = lit.voice(s, n);
    let end = spoken.pitch(accepted);
    Stepped {
        answer: end.answer(x),
        core: end,
    }
}

impl State {
    // The state that has seen no sample.
    #[tactic(auto, unfolding(crate::specs::Steps::fresh_state))]
    pub fn fresh() -> State
        ensures { result ≡ fresh_state }
    {
        State {
            held: [0; 200],
            core: Core::fresh(),
        }
    }

    // The windows filled by what the sample enters.
    // kept: this and the three after it take self and hand the state back, so alike: 01, "The form for each place".
    fn windows(mut self, s: Sample, n: u16, entry: i32) -> State
        requires { RingValid self × (entry_fits entry ≡ true) }
        ensures { result ≡ windows_of self s n entry }
    {
        let mut held = self.held;
        let core = self.core;
        self.core = entered(core, &mut held, s, n, entry);
        self.held = held;
        self
    }

    fn lamps(mut self, height: i32, n: u16) -> State
        ensures { result ≡ beside self.held (lamps_of self.core height n) }
    {
        let core = self.core;
        self.core = core.lamps(height, n);
        self
    }

    fn voice(mut self, s: Sample, n: u16) -> State
        ensures { result ≡ beside self.held (voice_of self.core s n) }
    {
        let core = self.core;
        self.core = core.voice(s, n);
        self
    }

    fn pitch(mut self, s: Accepted) -> State
        requires { GuideValid (guide_of self.core) }
        ensures { result ≡ beside self.held (pitch_of self.core s.sample s.frames) }
    {
        let core = self.core;
        self.core = core.pitch(s);
        self
    }

    // An accepted sample.
    fn accept(self, s: Sample) -> Offered
        requires { Valid self × InRange s × (frames_fit (frames_of self.core s) ≡ true) }
        ensures { result ≡ accept_of self s }
    {
        let before = self.core;
        let n = before.frames(s);
        let accepted = Accepted {
            sample: s,
            frames: n,
        };
        let x = before.shear(accepted);
        let entry = windows::entry(x);
        let full = self.windows(s, n, entry);
        let lit = full.lamps(s.height, n);
        let spoken = lit.voice(s, n);
        let end = spoken.pitch(accepted);
        let core = end.core;
        Offered {
            answer: core.answer(x),
            state: end,
        }
    }

    // 8, then 11 to 21: the first that fits.
    #[tactic(auto, unfolding(crate::specs::Steps::refusal_of))]
    fn check(&self, s: Sample) -> Result<(), Refusal>
        ensures { number_of result ≡ refusal_of self.now s }
    {
        if !self.passes() {
            return Err(Refusal::State);
        }
        self.core.check(s)
    }

    // A sample offered in the plain form: refused by the first number that fits, with the state handed back as it was; or answered, with the
    // next state.
    pub fn offer(self, s: Sample) -> Offered
        ensures { PlainPromise self s result.answer result.state }
    {
        if let Err(refusal) = self.check(s) {
            let answer = Answer {
                refusal: u16::from(refusal),
                ..Answer::default()
            };
            return Offered {
                answer,
                state: self,
            };
        }
        self.accept(s)
    }
}
