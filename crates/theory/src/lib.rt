#![tactic(auto)]

// Theorems about the definitions of `model`; no code. They stand in proofs/, and words that they need beside those of
// `model` in specs/.
