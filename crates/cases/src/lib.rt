// No code: what the definitions of `label` make of single messages and rows, by computation, stands in proofs/.
#![tactic(auto)]
