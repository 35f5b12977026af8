// Arbitration of claims on a block. spec_rack's Claims has the rules for raising and lowering a claim.
// order: sets, claims, change, sound, lib
#![tactic(auto)]

pub mod change;
pub mod claims;
pub mod sets;
pub mod sound;
