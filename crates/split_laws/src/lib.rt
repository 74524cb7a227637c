// What a split leaves as it was, and what it makes: definitions and theorems.

#![tactic(auto)]
