// An opening: the fresh record, written over the front of a lent buffer.
#![tactic(auto)]

ghost use Rattle.std.specs.Prelude.{◌≡◌, ◌≤◌, true, false, length, MatchOption};
ghost use Rattle.spec_rack.specs.Rack.{fresh_block, fresh};
ghost use Rattle.spec_rack.specs.Soundness.{sizes};
ghost use Rattle.spec_rack.specs.RecordLayout.{block_size, record_length, block, put};
ghost use Rattle.spec_rack.specs.Opening.{open_reply, open_after};

use base::numbers::BigEndian;
use record::sizes;
use spec_rack::{
    Answer, BLOCK_COUNT_OFFSET, BLOCK_SIZE, BLOCKS_OFFSET, BOARD_COUNT_OFFSET, CLAIMS_OFFSET,
    CLAIMS_SIZE, FORMAT_MAGIC, FORMAT_OFFSET, LANES_SIZE, MESSAGE_COUNT_OFFSET, OWNER_OFFSET,
    TOKEN_COUNT_OFFSET, VALID_OFFSET, WORDS_OFFSET, WORDS_SIZE,
};
use spec_wire::Refusal;

// The sizes of a rack, in range: N boards, B blocks, T tokens to a block.
#[derive(Clone, Copy)]
struct Sizes {
    boards: u8,
    blocks: u8,
    tokens: u8,
    ghost in_range: { sizes boards blocks tokens ≡ true },
}

impl Sizes {
    fn new(boards: u32, blocks: u32, tokens: u32) -> Option<Sizes>
        ensures { MatchOption result (sizes boards blocks tokens ≡ false) (λ s. (s.boards ≡ boards) × (s.blocks ≡ blocks) × (s.tokens ≡ tokens)) }
    {
        if !sizes::in_range(boards, blocks, tokens) {
            return None;
        }
        Some(Sizes {
            boards: boards as u8,
            blocks: blocks as u8,
            tokens: tokens as u8,
        })
    }
}

// Writes the fresh block: home holds all tokens, valid; the owner is clean, so its mark stays 0.
fn open_block(bytes: &mut [u8], sizes: Sizes)
    requires { length bytes.old ≡ block_size }
    ensures { bytes.new ≡ (block sizes.boards).write (fresh_block sizes.boards sizes.tokens) bytes.old }
{
    let words = WORDS_SIZE * (usize::from(sizes.boards) + 1);
    bytes[..LANES_SIZE].fill(0);
    bytes[CLAIMS_OFFSET..CLAIMS_OFFSET + CLAIMS_SIZE].fill(0);
    bytes[WORDS_OFFSET..WORDS_OFFSET + words].fill(0);
    bytes[0] = sizes.tokens - 1;
    bytes[OWNER_OFFSET] = 1;
    bytes[VALID_OFFSET] = 1;
}

// Writes the fresh record.
fn write_fresh(rec: &mut [u8], sizes: Sizes)
    requires { record_length sizes.blocks ≤ length rec.old }
    ensures { rec.new ≡ put (fresh sizes.boards sizes.blocks sizes.tokens) rec.old }
{
    FORMAT_MAGIC.write_at(rec, FORMAT_OFFSET);
    rec[BOARD_COUNT_OFFSET] = sizes.boards;
    rec[BLOCK_COUNT_OFFSET] = sizes.blocks;
    rec[TOKEN_COUNT_OFFSET] = sizes.tokens;
    rec[MESSAGE_COUNT_OFFSET] = 0;
    for b in 0..usize::from(sizes.blocks) {
        let at = BLOCKS_OFFSET + BLOCK_SIZE * b;
        open_block(&mut rec[at..at + BLOCK_SIZE], sizes);
    }
}

// Opens a record of N boards, B blocks and T tokens to a block: three numbers, as C has them.
pub fn open(rec: &mut [u8], boards: u32, blocks: u32, tokens: u32) -> Result<Answer, Refusal>
    ensures reply { result ≡ open_reply boards blocks tokens rec.old }
    ensures buffer { rec.new ≡ open_after boards blocks tokens rec.old }
{
    let Some(sizes) = Sizes::new(boards, blocks, tokens) else {
        return Err(Refusal::Size);
    };
    if rec.len() < BLOCKS_OFFSET + BLOCK_SIZE * usize::from(sizes.blocks) {
        return Err(Refusal::ShortBuffer);
    }
    write_fresh(rec, sizes);
    Ok(Answer::Done)
}
