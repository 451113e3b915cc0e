// Values of removals, under one proof. No code.
#![tactic(auto)]
