// Positions, the squares of cells, areas with their start numbers, lines and shortcuts, and the stream of a cell: definitions and theorems. The programs
// over them are in the crates above.

#![tactic(auto)]
