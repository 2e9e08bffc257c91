// No code: the bounds of the elementary functions, shown from their definitions.

#![tactic(auto)]
