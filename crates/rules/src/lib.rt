// A sample (01, "A sample"), what refuses it and its shear; specs/Rules.antt has the rules over a list of them.
#![tactic(auto)]

ghost use Rattle.std.specs.Prelude.{true, false, ◌≡◌, ◌≤◌, OnOk, IfErr};
ghost use Rattle.rules.specs.Choice.{within};
ghost use Rattle.rules.specs.Needs.{InRange};
ghost use Rattle.rules.specs.Refusal.{number_of};
ghost use Rattle.rules.specs.Rules.{refusal, then_frames};

pub mod ranges;
pub mod refusal;
pub mod shear;

use refusal::Refusal;

// One sample, in the units of 01's table; it stands for one or more of the twenty frames of a second (02, A6). A field holds any value that a caller
// may send.
// kept: mode and deselect are numbers, as C hands this struct over and `Sample::check` answers for any value.
#[repr(C)]
#[derive(Clone, Copy, Default)]
pub struct Sample {
    pub along: i32,
    pub vertical: i32,
    pub airspeed: i32,
    pub height: i32,
    pub pitch: i32,
    pub stall: i32,
    pub climb: i32,
    pub vs1: i32,
    pub mode: i32,
    pub deselect: i32,
    // the host's number of this frame, of 16 bits that go round (02, A6)
    pub frame: u16,
}

// A sample that no number of 11 to 21 fits, as far as the arithmetic leans on it, with the frames that it stands for. Only shear leans on
// these being one at least.
#[derive(Clone, Copy)]
pub struct Accepted {
    pub sample: Sample,
    pub frames: u16,
    ghost in_range: { InRange sample },
    ghost frames_le: { frames ≤ 20 },
}

impl Sample {
    // 11 to 20, the first that fits the sample.
    #[tactic(auto, unfolding(crate::specs::Rules::refusal, crate::specs::Rules::first_bad, crate::specs::Rules::in_range, crate::specs::Rules::inside, crate::specs::Rules::ranges))]
    pub fn check(self) -> Result<(), Refusal>
        ensures { number_of result ≡ refusal self }
    {
        check(-20000, self.along, 20000, Refusal::Along)?;
        check(-10000, self.vertical, 10000, Refusal::Vertical)?;
        check(6000, self.airspeed, 60000, Refusal::Airspeed)?;
        check(-20, self.height, 5000, Refusal::Height)?;
        check(-30000, self.pitch, 30000, Refusal::Pitch)?;
        check(-10000, self.stall, 30000, Refusal::Stall)?;
        check(-10000, self.climb, 10000, Refusal::Climb)?;
        check(5000, self.vs1, 30000, Refusal::Vs1)?;
        check(0, self.mode, 1, Refusal::Mode)?;
        check(0, self.deselect, 1, Refusal::Deselect)
    }

    // The same, then 21 where the sample can't stand for so many frames.
    #[tactic(auto, unfolding(crate::specs::Rules::then_frames, crate::specs::Choice::or_else))]
    pub fn check_for(self, frames: u16) -> Result<(), Refusal>
        ensures { number_of result ≡ then_frames (refusal self) frames }
    {
        self.check()?;
        if frames::fit(frames) {
            Ok(())
        } else {
            Err(Refusal::Frames)
        }
    }
}

// A field, from lo to hi, both ends in.
#[tactic(auto, unfolding(crate::specs::Choice::within))]
fn check(lo: i32, x: i32, hi: i32, otherwise: Refusal) -> Result<(), Refusal>
    ensures ok { OnOk result (within lo x hi ≡ true) }
    ensures err { IfErr result (λ refusal. (within lo x hi ≡ false) × (refusal ≡ otherwise)) }
{
    if (lo..=hi).contains(&x) {
        Ok(())
    } else {
        Err(otherwise)
    }
}
