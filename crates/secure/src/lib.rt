// Demand 3 stands in specs/.
#![tactic(auto)]
