// The guarantee for the bench sheet (02, A4): claims on what the unit, its runs and its host answer. There is no code in it.
#![tactic(auto)]
