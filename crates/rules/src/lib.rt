// What document 01 means stands in specs/, and the laws of those definitions in proofs/. No code is here.
#![tactic(auto)]
