// Known or unknown, over any facts: what a knowledge becomes under a rule, and that this is exactly what all fitting chips agree on. There is
// no code here, and nothing of any chip.
#![tactic(auto)]
