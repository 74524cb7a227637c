// What sides show, and the pruning of streams: definitions and theorems, for items of any kind. The programs over them are in the crates above.

#![tactic(auto)]
