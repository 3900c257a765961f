// Frames elapsed between two numbers of 16 bits that go round, and how many a sample may stand for (02, A6).
#![tactic(auto)]

ghost use Rattle.std.specs.Prelude.{◌≡◌};
ghost use Rattle.frames.specs.Frames.{elapsed, frames_fit};

// How many frames have passed since the one numbered `last`.
#[tactic(auto, unfolding(crate::specs::Frames::elapsed))]
pub fn elapsed(number: u16, last: u16) -> u16
    ensures { result ≡ elapsed number last }
{
    number.wrapping_sub(last)
}

// Whether a sample may stand for so many: 1 to 20.
#[tactic(auto, unfolding(crate::specs::Frames::frames_fit))]
pub fn fit(n: u16) -> bool
    ensures { result ≡ frames_fit n }
{
    (1..=20).contains(&n)
}
