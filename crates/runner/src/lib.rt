// The run of a plan: the definitions stand in specs/.
#![tactic(auto)]
