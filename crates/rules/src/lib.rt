// A move of a chip written as data. There is no code here: what a rule is, what it does to a chip and the laws of both
// stand in specs/, those of a move's results in proofs/, and nothing there knows of any chip.
#![tactic(auto)]
