// A line is at most 96 bytes, and what the buffer holds after a call.

#![tactic(auto)]
