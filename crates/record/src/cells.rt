// A cell: what a component has of a block. Its token state is a byte in each of four lanes; its words stand apart.
ghost use Rattle.std.specs.Prelude.{◌≡◌, true, ◌+◌, ◌*◌, ◌<◌, get_or};
ghost use Rattle.spec_rack.specs.Rack.{present, cell_at};
ghost use Rattle.spec_rack.specs.Rules.{stored};
ghost use Rattle.spec_rack.specs.RecordLayout.{block_offset, cell_words_offset, get, put};
ghost use Rattle.record.specs.Needs.{CellInRecord};
ghost use Rattle.record.specs.Changes.{TokenStateOf, with_token_state, replace_cell};

use super::{TokenState, owner, tokens, words};
use base::numbers::BigEndian;
use spec_rack::{
    BLOCK_SIZE, BLOCKS_OFFSET, DIRTY_OFFSET, LANE_SIZE, OWNER_OFFSET, VALID_OFFSET, WORDS_OFFSET,
    WORDS_SIZE,
};

// The offset of a component's plain count in a block.
pub fn plain_offset(block: u8, component: u8) -> usize
    ensures { result ≡ block_offset block + component }
{
    BLOCKS_OFFSET + BLOCK_SIZE * usize::from(block) + usize::from(component)
}

// The offset of a component's words in a block.
pub fn words_offset(block: u8, component: u8) -> usize
    ensures { result ≡ cell_words_offset block component }
{
    BLOCKS_OFFSET
        + BLOCK_SIZE * usize::from(block)
        + WORDS_OFFSET
        + WORDS_SIZE * usize::from(component)
}

// The token state of a cell.
pub fn token_state(rec: &[u8], block: u8, component: u8) -> TokenState
    requires { CellInRecord rec.now block component }
    ensures { TokenStateOf (cell_at (get rec.now) block component) result }
{
    let at = plain_offset(block, component);
    TokenState {
        plain: rec[at],
        owner: owner::owner_of(rec[at + OWNER_OFFSET] == 1, rec[at + DIRTY_OFFSET] == 1),
        valid: rec[at + VALID_OFFSET] == 1,
    }
}

// Writes a cell's token state; its words stay.
pub fn set_token_state(rec: &mut [u8], block: u8, component: u8, state: TokenState)
    requires { CellInRecord rec.old block component }
    ensures { rec.new ≡ put (replace_cell (get rec.old) block component (with_token_state (cell_at (get rec.old) block component) state)) rec.old }
{
    let at = plain_offset(block, component);
    tokens::put_tokens::<LANE_SIZE>(rec, at, state);
}

// A word of a cell.
pub fn word(rec: &[u8], block: u8, component: u8, index: u8) -> u32
    requires { CellInRecord rec.now block component × (index < 8) }
    ensures { result ≡ get_or (cell_at (get rec.now) block component).words index 0 }
{
    let at = words_offset(block, component);
    u32::read_at(rec, at + 4 * usize::from(index))
}

// Writes a word of a cell that has the owner, and marks the owner dirty.
pub fn set_word(rec: &mut [u8], block: u8, component: u8, index: u8, value: u32)
    requires { CellInRecord rec.old block component × (index < 8) × (present (cell_at (get rec.old) block component).owner ≡ true) }
    ensures { rec.new ≡ put (stored (get rec.old) component block index value) rec.old }
{
    let plain = plain_offset(block, component);
    let at = words_offset(block, component);
    let place = at + 4 * usize::from(index);
    value.write_at(rec, place);
    rec[plain + DIRTY_OFFSET] = 1;
}

// All words of a cell.
pub fn words_of(rec: &[u8], block: u8, component: u8) -> [u32; 8]
    requires { CellInRecord rec.now block component }
    ensures { result ≡ (cell_at (get rec.now) block component).words }
{
    let at = words_offset(block, component);
    words::words_at(rec, at)
}
