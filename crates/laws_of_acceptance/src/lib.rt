// What acceptance guarantees of a road, and which files are turned away.

#![tactic(auto)]
