// The pieces of the exact road: where they meet, and its values by any piece that has the station.

#![tactic(auto)]
