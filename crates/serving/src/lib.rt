// No functions: what holds of the stream of a served job between its calls (`specs/Steady.antt`), and that none of its
// calls is refused but for a total past 64 bits.
#![tactic(auto)]
