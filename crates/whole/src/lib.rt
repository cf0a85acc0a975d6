// The recording as a whole: where settings and position are known at the start, and no event is a gap or an undefined command, what is known
// at the end is exactly what all fitting chips end with. There is no code here.
#![tactic(auto)]
