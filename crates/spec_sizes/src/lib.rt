// The sizes of a rack, as an opening names them. There is no code.
#![tactic(auto)]

// N, B and T, and the most messages in flight (document 02, No. 5).
#[derive(Clone, Copy)]
pub struct Sizes {
    pub boards: u32,
    pub blocks: u32,
    pub tokens: u32,
    pub limit: u32,
}
