// Document 01, "Demand 3, over lists of calls", and document 02, Q-3, over blocks: the statements are in
// specs/, their proofs in proofs/. No code of its own: they speak of `receiver::clock`,
// `registers::read`, `registers::write` and `trace::run_block`.
#![tactic(auto)]
