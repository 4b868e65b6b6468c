// Definitions and laws about lists that several crates cite. They stand in specs/ and proofs/; there is no code.
#![tactic(auto)]
