// What an accepted drawing has, lent tables that hold it, and the check of streams made from it: definitions and theorems.

#![tactic(auto)]
