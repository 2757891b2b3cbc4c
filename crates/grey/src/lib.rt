// No code: what the converter makes of grey. The statements stand in demands, the laws in proofs/.

#![tactic(auto)]
