// What holds of a temperature that was answered: what every chip shows, what was known, and what more knowledge makes of it. There is no code here; the laws
// stand in specs/.
#![tactic(auto)]
