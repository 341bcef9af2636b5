// Lines as data: what a text of lines is made of, how it is read, and the theorems on reading it, for any such text (no code).
#![tactic(auto)]
