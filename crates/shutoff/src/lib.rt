// Demand 3 and its kin: definitions and theorems only, in specs/.

#![tactic(auto)]
