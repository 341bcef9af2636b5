// The functions of the nodes of a table, the check of a table, and the theory of accepted tables. No code.
#![tactic(auto)]
