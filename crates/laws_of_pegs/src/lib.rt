// The rows of pegs are those of single calls, so what holds of the blade between those holds of them; both sides of each limit of a list of pegs.

#![tactic(auto)]
