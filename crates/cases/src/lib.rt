// S1 to S10 of document 01 from the definitions: one table and a statement covering it, in specs/.

#![tactic(auto)]
