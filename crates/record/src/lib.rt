// The record's fields, read and written at their offsets. spec_rack's RecordLayout has the layout.
// order: lib, sizes, words, owner, tokens, cells
#![tactic(auto)]

pub mod cells;
pub mod owner;
pub mod sizes;
pub mod tokens;
pub mod words;

use spec_rack::Owner;

// The token state of a component and a block: plain count, owner, valid.
#[derive(Clone, Copy)]
pub struct TokenState {
    pub plain: u8,
    pub owner: Owner,
    pub valid: bool,
}
