// Laws of searches along lists: what the first, the last and the least item are.

#![tactic(auto)]
