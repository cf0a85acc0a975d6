// A painting, replayed: its recording is always accepted, and from whatever knowledge it is replayed, the picture is what is known at the
// end. There is no code here.
#![tactic(auto)]
