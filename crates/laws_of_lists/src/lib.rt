// What holds of every item of a list, and tests joined by "and" and "or".

#![tactic(auto)]
