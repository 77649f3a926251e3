// The blade between two neighbouring rows of any run of calls.

#![tactic(auto)]
