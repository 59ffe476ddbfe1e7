#![tactic(auto)]

// What the entries promise, and what follows from it; no code. The promises stand in specs/, and cite the outcomes that
// `model` defines; that each leaves one outcome per input, and what a user wants to know of it, is shown in proofs/.
