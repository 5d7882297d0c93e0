// The meaning of a node: the definitions stand in specs/.
#![tactic(auto)]
