// Claims: the persistent requests of boards on a block, and the sets of boards that they are made of. There is no code.
#![tactic(auto)]
