// The marked cases of document 01 stand in specs/.
#![tactic(auto)]
