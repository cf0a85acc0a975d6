// An update, as events: it leads every chip that fits to the wanted cells, writes just the cells that differ, and what is known then. There is no code
// here.
#![tactic(auto)]
