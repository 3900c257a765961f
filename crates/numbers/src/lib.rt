// Numbers from text, read from a lent buffer (02, A3).
#![tactic(auto)]

pub mod read;
