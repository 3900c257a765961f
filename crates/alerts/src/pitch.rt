// Escape guidance, its count in frames (01, "Escape pitch"; 02, A6).
ghost use Rattle.std.specs.Prelude.{◌≡◌, ◌≤◌, ◌<◌, nat_abs};
ghost use Rattle.rules.specs.Rules.{cap, towards, climbing, counted};
ghost use Rattle.alerts.specs.Counters.{GuideValid, started_of, continued_of, guide_next, shown_of};

use rules::{Accepted, Sample};

// Guidance: count is 0 while it is off, else one more than the frames in a row that have counted towards its end.
// kept: 0 for off, as Core has it for C.
// kept: GuideValid in requires and not a ghost field, as the definition guide_of makes a Guide of any core's numbers
#[derive(Clone, Copy, Debug, Default, PartialEq, Eq)]
pub struct Guide {
    pub count: u16,
    pub command: i32,
}

#[tactic(auto, unfolding(rules::specs::Rules::cap, rules::specs::Choice::smaller))]
fn cap(s: Sample) -> i32
    ensures { result ≡ cap s }
{
    s.stall.min(27000)
}

// 75 for each of the sample's frames.
fn towards(s: Accepted, c: i32) -> i32
    requires { nat_abs c ≤ 30000 }
    ensures { result ≡ towards s.frames c }
{
    let most = 75 * i32::from(s.frames);
    if c < 15000 {
        (c + most).min(15000)
    } else {
        (c - most).max(15000)
    }
}

#[tactic(auto, unfolding(rules::specs::Rules::climbing))]
fn climbing(s: Accepted) -> bool
    ensures { result ≡ climbing s.sample }
{
    0 < s.sample.climb && s.sample.vs1 * 13 < s.sample.airspeed * 10
}

// The count after a sample that adds so many frames where it counts.
#[tactic(auto, unfolding(rules::specs::Rules::counted))]
fn counted(s: Accepted, added: u16, count: u16) -> u16
    requires { (added ≤ 20) × (count ≤ 600) }
    ensures { result ≡ counted s.sample added count }
{
    if climbing(s) { count + added } else { 0 }
}

#[tactic(auto, using(crate::proofs::CounterLaws::counted_le), unfolding(crate::specs::Counters::started_of, rules::specs::Choice::smaller))]
fn started(s: Accepted) -> Guide
    ensures { result ≡ started_of s.sample }
{
    Guide {
        count: counted(s, 1, 0) + 1,
        command: cap(s.sample).min(s.sample.pitch),
    }
}

impl Guide {
    #[tactic(auto, using(crate::proofs::CounterLaws::counted_le), unfolding(crate::specs::Counters::continued_of, crate::specs::Counters::no_guide, rules::specs::Choice::smaller))]
    fn continued(self, s: Accepted) -> Guide
        requires { GuideValid self × (0 < self.count) }
        ensures { result ≡ continued_of self s.sample s.frames }
    {
        let count = counted(s, s.frames, self.count - 1);
        if 600 <= count {
            return Guide::default();
        }
        let top = cap(s.sample);
        Guide {
            count: count + 1,
            command: top.min(towards(s, self.command)),
        }
    }

    // "Guidance ends at a sample with deselect, which beats a start"; "an end beats a coming-on".
    #[tactic(auto, using(crate::proofs::CounterLaws::is_one, crate::proofs::CounterLaws::not_one), unfolding(crate::specs::Counters::guide_next, crate::specs::Counters::no_guide))]
    pub fn next(self, s: Accepted, comes: bool) -> Guide
        requires { GuideValid self }
        ensures { result ≡ guide_next self s.sample s.frames comes }
    {
        if s.sample.deselect == 1 {
            return Guide::default();
        }
        if 0 < self.count {
            self.continued(s)
        } else if comes {
            started(s)
        } else {
            Guide::default()
        }
    }
}

// 1 where the command is shown.
// kept: a number, as Answer has it for C.
#[tactic(auto, unfolding(crate::specs::Counters::shown_of))]
pub fn shown(count: u16) -> u16
    ensures { result ≡ shown_of count }
{
    u16::from(count != 0)
}
