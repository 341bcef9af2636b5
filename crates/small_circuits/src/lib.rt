// P1 to P12 of the scope: no code, only what is known of them (specs/) and that the definitions say so (proofs/).
#![tactic(auto)]
