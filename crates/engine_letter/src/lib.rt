// The state letter of a board and a block.
#![tactic(auto)]

ghost use Rattle.std.specs.Prelude.{◌≡◌, ◌+◌, ◌≤◌, ◌<◌, length, get_or};
ghost use Rattle.spec_rack.specs.Letter.{letter_of, letter_reply};
ghost use Rattle.spec_rack.specs.RecordLayout.{owner_offset, dirty_offset, cell_at_offset, tokens_in};

use record_soundness::sound;
use spec_rack::{
    BLOCK_COUNT_OFFSET, BLOCK_SIZE, BLOCKS_OFFSET, BOARD_COUNT_OFFSET, DIRTY_OFFSET, Letter,
    OWNER_OFFSET, TOKEN_COUNT_OFFSET, VALID_OFFSET,
};
use spec_wire::Refusal;

// The letter of the component whose plain count is at `at`.
fn letter_at(rec: &[u8], at: usize) -> Letter
    requires { (at + dirty_offset < length rec.now) × (get_or rec.now (at + owner_offset) 0 < 2) × (get_or rec.now (at + dirty_offset) 0 ≤ get_or rec.now (at + owner_offset) 0) }
    ensures { result ≡ letter_of (tokens_in rec.now) (cell_at_offset rec.now at) }
{
    let owner = rec[at + OWNER_OFFSET];
    if u32::from(rec[at]) + u32::from(owner) == u32::from(rec[TOKEN_COUNT_OFFSET]) {
        // The owner is clean where its byte is 1 and its dirty byte 0.
        if rec[at + DIRTY_OFFSET] < owner {
            return Letter::E;
        }
        return Letter::M;
    }
    if owner == 1 {
        return Letter::O;
    }
    if rec[at + VALID_OFFSET] == 1 {
        Letter::S
    } else {
        Letter::I
    }
}

pub fn letter(rec: &[u8], component: u32, block: u32) -> Result<Letter, Refusal>
    ensures { result ≡ letter_reply rec.now component block }
{
    if !sound(rec) {
        return Err(Refusal::Unsound);
    }
    let boards = u32::from(rec[BOARD_COUNT_OFFSET]);
    let blocks = u32::from(rec[BLOCK_COUNT_OFFSET]);
    if (boards < component) | (blocks <= block) {
        return Err(Refusal::OffRack);
    }
    if component == 0 {
        return Err(Refusal::Home);
    }
    // `as`: no From leads from u32 to usize.
    let at = BLOCKS_OFFSET + BLOCK_SIZE * (block as usize) + component as usize;
    Ok(letter_at(rec, at))
}
