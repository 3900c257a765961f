// The voice's counter, in frames (01, "Lamps and voice"; 02, A6).
ghost use Rattle.std.specs.Prelude.{◌≡◌};
ghost use Rattle.rules.specs.Rules.{cycle};
ghost use Rattle.alerts.specs.Counters.{changed_of, kept_of, voice_next};

// Whether the mode differs from the last accepted sample's. "The first sample is no mode change."
// kept: `seen` beside the mode, as Core has them for C.
#[tactic(auto, using(crate::proofs::CounterLaws::code_same), unfolding(crate::specs::Counters::changed_of))]
pub fn changed(seen: u16, last: i32, mode: i32) -> bool
    ensures { result ≡ changed_of seen last mode }
{
    seen != 0 && mode != last
}

// "A mode change at a sample silences it and frees it".
#[tactic(auto, unfolding(crate::specs::Counters::kept_of))]
pub fn kept(count: u16, change: bool) -> u16
    ensures { result ≡ kept_of count change }
{
    if change { 0 } else { count }
}

// The counter after a sample of n frames at which red comes on or not. It stops at 73, where the three cycles are over.
#[tactic(auto, unfolding(crate::specs::Counters::voice_next))]
pub fn next(count: u16, n: u16, comes: bool) -> u16
    ensures { result ≡ voice_next count n comes }
{
    if count == 0 {
        return u16::from(comes);
    }
    count.saturating_add(n).min(73)
}

// Which of the three cycles of 24 frames it is in; 0 for none.
#[tactic(auto, unfolding(rules::specs::Rules::cycle))]
pub fn cycle(count: u16) -> u16
    ensures { result ≡ cycle count }
{
    if count <= 72 { (count + 23) / 24 } else { 0 }
}
