// The claims over every list of samples offered in the plain form, demand 3 and A9 among them. No function.
#![tactic(auto)]
