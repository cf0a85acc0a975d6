// Demand 3 over whole recordings, for the replay: what fitted fits, who knew more knows more, and what is known at the end is exact. There is no
// code here.
#![tactic(auto)]
