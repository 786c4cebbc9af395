// Any order that respects the reads: definitions and laws.
#![tactic(auto)]
