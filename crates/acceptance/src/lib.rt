// What is answered of a router's list, and what an accepted one promises: definitions and laws.
#![tactic(auto)]
