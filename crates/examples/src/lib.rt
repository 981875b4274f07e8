// No code: document 01's examples stand in specs/, and proofs/ proves them.
#![tactic(auto)]
