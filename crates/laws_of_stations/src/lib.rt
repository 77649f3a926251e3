// The listed stations: exactly those of the paper, ascending, and the run that visits them.

#![tactic(auto)]
