// The text that rackrun writes. There is no code.
#![tactic(auto)]
