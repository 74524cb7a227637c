// Demand 3 of document 01 as one theorem over lists of calls on a tree: definitions and theorems.

#![tactic(auto)]
