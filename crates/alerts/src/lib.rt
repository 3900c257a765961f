// What follows once the windows are filled: the counters of the lamps, the voice and escape guidance (01, "Lamps and voice" and "Escape pitch").
#![tactic(auto)]

pub mod lamps;
pub mod pitch;
pub mod voice;
