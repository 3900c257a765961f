// Cases of the rules: the figures, the starred cases as one list, and every list whose samples each stand for one frame. No function.
#![tactic(auto)]
