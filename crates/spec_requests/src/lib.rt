// What the requests of document 02 mean for the rack, and what they leave as it was. There is no code.
#![tactic(auto)]
