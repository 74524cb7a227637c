// The drawing of a list of records, and the elements that cell 0's stream is made from: definitions and theorems.

#![tactic(auto)]
