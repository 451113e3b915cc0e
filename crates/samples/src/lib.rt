// Samples A to L of 01 and M of 02, under one proof. No code.
#![tactic(auto)]
