// What a core is refused by, as far as 8 tests it (01, "Refusal numbers").
ghost use Rattle.std.specs.Prelude.{◌≡◌};
ghost use Rattle.unit_core.specs.Core.{counters_fit, last_fits};

use crate::Core;

// Whether every counter is at most 600.
#[tactic(auto, unfolding(crate::specs::Core::counters_fit))]
pub fn counters_fit(core: Core) -> bool
    ensures { result ≡ counters_fit core }
{
    core.seen <= 600
        && core.red <= 600
        && core.amber <= 600
        && core.voice <= 600
        && core.guidance <= 600
}

// Whether the command and the last sample's along wind and mode are in range.
pub fn last_fits(core: Core) -> bool
    ensures { result ≡ last_fits core }
{
    (-30000..=27000).contains(&core.command)
        && (-20000..=20000).contains(&core.along)
        && (0..=1).contains(&core.mode)
}
