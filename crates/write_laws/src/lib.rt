// No code: laws about a loop that writes what a run reads.
#![tactic(auto)]
