// The core: what the unit keeps beside the ring's entries, and what a sample does to it (01, "A sample" to "Escape pitch").
#![tactic(auto)]

ghost use Rattle.std.specs.Prelude.{◌≡◌, ◌≤◌, nat_abs};
ghost use Rattle.alerts.specs.Counters.{GuideValid};
ghost use Rattle.unit_core.specs.Core.{fresh_core, frames_of, shear_of, lamps_of, voice_of, guide_of, pitch_of, answer_of, refusal_by};
ghost use Rattle.rules.specs.Refusal.{number_of};

pub mod ranges;

use alerts::{lamps, pitch, voice};
use rules::refusal::Refusal;
use rules::{Accepted, Sample, shear};
use windows::Sums;

// What the unit keeps from sample to sample, beside the ring's entries. A field may hold any value; refusal 8 has the limits.
// kept: numbers, 0 for none and for off, as C hands this struct over and is handed it.
#[repr(C)]
#[derive(Clone, Copy, Debug, Default, PartialEq, Eq)]
pub struct Core {
    // each window's running sum
    pub sums: Sums,
    // the last accepted sample's along wind and mode; 0 while there is none
    pub along: i32,
    pub mode: i32,
    // the command; 0 while guidance is off
    pub command: i32,
    // 0 while no sample has been accepted, else 1
    pub seen: u16,
    // for how many frames the lamp has been lit, up to 60; 0 is dark
    pub red: u16,
    pub amber: u16,
    // for how many frames the voice has been given since the last mode change, up to 73; 0 is not given
    pub voice: u16,
    // 0 is off; else one more than the frames in a row that have counted towards the end
    pub guidance: u16,
    // where the newest entry stands in the ring
    pub place: u16,
    // the last accepted sample's frame number; 0 while there is none
    pub frame: u16,
}

// What a sample is answered. `refusal` is 0 where it was accepted; else it is the first number that fits, and the other fields are 0.
// kept: numbers, as C is handed this struct.
#[repr(C)]
#[derive(Clone, Copy, Debug, Default, PartialEq, Eq)]
pub struct Answer {
    pub refusal: u16,
    // 0 none, 1 amber, 2 red
    pub alert: u16,
    pub voice: u16,
    // 1 where the command is shown
    pub guidance: u16,
    pub command: i32,
    pub shear: i32,
}

impl Core {
    // The core of the state that has seen no sample.
    #[tactic(auto, unfolding(crate::specs::Core::fresh_core))]
    pub fn fresh() -> Core
        ensures { result ≡ fresh_core }
    {
        Core::default()
    }

    // The frames that a sample stands for: those elapsed since the last accepted one; one at the first.
    #[tactic(auto, unfolding(crate::specs::Core::frames_of))]
    pub fn frames(self, s: Sample) -> u16
        ensures { result ≡ frames_of self s }
    {
        if 0 < self.seen {
            return frames::elapsed(s.frame, self.frame);
        }
        1
    }

    // 11 to 21, the first that fits a sample after those that the core has seen (02, A6).
    #[tactic(auto, unfolding(crate::specs::Core::refusal_by))]
    pub fn check(self, s: Sample) -> Result<(), Refusal>
        ensures { number_of result ≡ refusal_by self s }
    {
        s.check_for(self.frames(s))
    }

    // The held shear of a sample, from the change of along wind since the last accepted one.
    #[tactic(auto, using(crate::proofs::ShearLaws::change_fits))]
    pub fn shear(self, s: Accepted) -> i32
        requires { (nat_abs self.along ≤ 20000) × (s.frames ≡ frames_of self s.sample) × (1 ≤ s.frames) }
        ensures { (result ≡ shear_of self s.sample) × (nat_abs result ≤ 50000000) }
    {
        let n = s.frames;
        let v = s.sample.vertical;
        let a = s.sample.airspeed;
        if 0 < self.seen {
            return shear::held(s.sample.along - self.along, n, v, a);
        }
        shear::held(0, n, v, a)
    }

    pub fn lamps(mut self, height: i32, n: u16) -> Core
        ensures { result ≡ lamps_of self height n }
    {
        let sums = self.sums;
        let band = (50..=1000).contains(&height);
        let up = band && sums.met(true);
        let down = band && sums.met(false);
        let red = lamps::next(self.red, n, up);
        self.red = red;
        self.amber = lamps::unless(red, lamps::next(self.amber, n, down));
        self
    }

    #[tactic(auto, unfolding(crate::specs::Core::voice_of))]
    pub fn voice(mut self, s: Sample, n: u16) -> Core
        ensures { result ≡ voice_of self s n }
    {
        let change = voice::changed(self.seen, self.mode, s.mode);
        self.voice = voice::next(voice::kept(self.voice, change), n, self.red == 1);
        self.mode = s.mode;
        self.seen = 1;
        self
    }

    #[tactic(auto, unfolding(crate::specs::Core::pitch_of, crate::specs::Core::guide_of))]
    pub fn pitch(mut self, s: Accepted) -> Core
        requires { GuideValid (guide_of self) }
        ensures { result ≡ pitch_of self s.sample s.frames }
    {
        let g = pitch::Guide {
            count: self.guidance,
            command: self.command,
        };
        let next = g.next(s, self.red == 1);
        self.guidance = next.count;
        self.command = next.command;
        self
    }

    #[tactic(auto, unfolding(crate::specs::Core::answer_of))]
    pub fn answer(self, x: i32) -> Answer
        ensures { result ≡ answer_of self x }
    {
        Answer {
            refusal: 0,
            alert: u16::from(lamps::alert(self.red, self.amber)),
            voice: voice::cycle(self.voice),
            guidance: pitch::shown(self.guidance),
            command: self.command,
            shear: x,
        }
    }
}
