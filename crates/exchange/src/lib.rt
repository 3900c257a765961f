// Runs as CSV text, imported and exported (02, A3): claims on both ways. There is no code in it.
#![tactic(auto)]
