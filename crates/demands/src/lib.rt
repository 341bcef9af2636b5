// The demands on the engine: no code, only the demands as statements (specs/) and their theorems (proofs/).
#![tactic(auto)]
