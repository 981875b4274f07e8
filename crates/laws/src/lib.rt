// Laws that belong to no one component. They are in specs/ and proofs/; there is no code.
#![tactic(auto)]
