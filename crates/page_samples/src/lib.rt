// Values of pages, under one proof. No code.
#![tactic(auto)]
