// Send and forward: tokens from a cell into the mesh. Check and change of a step stand in one file.
// order: lib, send, forward
#![tactic(auto)]

pub mod forward;
pub mod send;

// What a send moves: from a component to a target, of a block, so many plain tokens, the owner or not, with data or without.
#[derive(Clone, Copy)]
pub struct Transfer {
    pub component: u8,
    pub block: u8,
    pub target: u8,
    pub plain: u8,
    pub owner: bool,
    pub data: bool,
}
