// Folds, placed bytes, numbers in bytes and byte layouts: the language of the specifications. There is no code.
#![tactic(auto)]
