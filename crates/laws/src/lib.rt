// Mathematics that no paper owns; definitions in specs/, laws in proofs/.
#![tactic(auto)]
