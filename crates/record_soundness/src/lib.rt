// Whether the record at the front of a buffer is sound: its header, then one pass over its messages, then passes over its blocks.
// order: block_set, lib
#![tactic(auto)]

pub mod block_set;

ghost use Rattle.std.specs.Prelude.{◌≡◌, true, ◌&&◌, ℕ, ◌+◌, ◌*◌, ◌≤◌, ◌<◌, eqb, length, get_or, replicate, is_some, IfSome};
ghost use Rattle.spec_base.specs.Folds.{all_below, implies};
ghost use Rattle.spec_arbiter.specs.Boards.{member};
ghost use Rattle.spec_rack.specs.Soundness.{sound_bytes};
ghost use Rattle.spec_rack.specs.RecordLayout.{format_magic, header_size, block_size, block_offset, message_offset, record_length, format_in, boards_in, blocks_in, tokens_in, messages_in};
ghost use Rattle.record_message.specs.Messages.{sound_message_at};
ghost use Rattle.record_soundness.specs.Decision.{header_sound, sum_in_flight, tokens_total, sound_claims_at, sound_sums_at, sound_block_at};

use base::numbers::BigEndian;
use record::sizes;
use record_lanes::sum16;
use record_message::{sound_message_at, token_sum};
use spec_rack::{
    BLOCK_COUNT_OFFSET, BLOCK_SIZE, BLOCKS_OFFSET, BOARD_COUNT_OFFSET, CLAIMS_OFFSET, FORMAT_MAGIC,
    FORMAT_OFFSET, HEADER_SIZE, MESH_LIMIT, MESSAGE_BLOCK_OFFSET, MESSAGE_COUNT_OFFSET,
    MESSAGE_PLAIN_OFFSET, MESSAGE_SIZE, OWNER_OFFSET, TOKEN_COUNT_OFFSET,
};

// A record with the figures of its header, which are in range, so that the bytes have a place for all that it speaks of. Whether its messages and blocks are
// sound is still to be decided.
#[derive(Clone, Copy)]
struct Candidate<'a> {
    rec: &'a [u8],
    boards: u8,
    blocks: u8,
    tokens: u8,
    messages: u8,
    ghost few_boards: { boards < 16 },
    ghost few_blocks: { blocks ≤ 32 },
    ghost few_messages: { messages ≤ 64 },
    ghost room: { record_length blocks ≤ length rec.now },
}

// Whether the record has the format of this layout.
fn format_known(rec: &[u8]) -> bool
    requires { header_size ≤ length rec.now }
    ensures { result ≡ eqb (format_in rec.now) format_magic }
{
    u32::read_at(rec, FORMAT_OFFSET) == FORMAT_MAGIC
}

// Whether the block at `at` has T tokens, one of them the owner, given the token sum of its messages in flight.
fn tokens_total(rec: &[u8], at: usize, tokens: u8, mesh: u32) -> bool
    requires { (at + block_size ≤ length rec.now) × (mesh ≤ 1069563840) }
    ensures { result ≡ tokens_total tokens rec.now at mesh }
{
    sum16(rec, at) + sum16(rec, at + OWNER_OFFSET) * 65536 + mesh == u32::from(tokens) + 65535
}

impl<'a> Candidate<'a> {
    // The record at the front of the buffer, unless its header or the length tells that it is not sound.
    fn read(rec: &'a [u8]) -> Option<Candidate<'a>>
        ensures header { is_some result ≡ header_sound rec.now }
        ensures bytes { IfSome result (λ c. c.rec.now ≡ rec.now) }
        ensures sizes { IfSome result (λ c. (c.boards ≡ boards_in rec.now) × (c.blocks ≡ blocks_in rec.now) × (c.tokens ≡ tokens_in rec.now)) }
        ensures messages { IfSome result (λ c. c.messages ≡ messages_in rec.now) }
    {
        if rec.len() < HEADER_SIZE {
            return None;
        }
        let boards = rec[BOARD_COUNT_OFFSET];
        let blocks = rec[BLOCK_COUNT_OFFSET];
        let tokens = rec[TOKEN_COUNT_OFFSET];
        let messages = rec[MESSAGE_COUNT_OFFSET];
        let in_range = sizes::in_range(u32::from(boards), u32::from(blocks), u32::from(tokens));
        if !(in_range & (messages <= MESH_LIMIT)) {
            return None;
        }
        if !format_known(rec) || rec.len() < BLOCKS_OFFSET + BLOCK_SIZE * usize::from(blocks) {
            return None;
        }
        Some(Candidate {
            rec,
            boards,
            blocks,
            tokens,
            messages,
        })
    }

    // Whether the messages are sound; if so, each block's tokens in flight are in its sum, plain ones and owners in one number. With an Option of the sums as
    // the result these were copied twice, which took 24 instructions.
    fn mesh_sound(&self, sums: &mut [u32; 32]) -> bool
        requires { sums.old ≡ replicate 32 0 }
        ensures messages { let c = self.now in result ≡ all_below c.messages (λ i. sound_message_at c.boards c.blocks c.rec.now (message_offset i)) }
        ensures sums { result ≡ true → (k : ℕ) → k < 32 → get_or sums.new k 0 ≡ sum_in_flight self.now.rec.now self.now.messages k }
    {
        let rec = self.rec;
        for i in 0..usize::from(self.messages) {
            let at = HEADER_SIZE + MESSAGE_SIZE * i;
            if !sound_message_at(rec, at, self.boards, self.blocks) {
                return false;
            }
            let block = usize::from(rec[at + MESSAGE_BLOCK_OFFSET]);
            sums[block] += token_sum(rec, at + MESSAGE_PLAIN_OFFSET);
        }
        true
    }

    // Whether the claims of every block of a set are sound: the blocks in which a board is barred.
    fn barred_sound(&self, barred: u32) -> bool
        requires { (k : ℕ) → member barred k ≡ true → k < self.now.blocks }
        ensures { let c = self.now in result ≡ all_below 32 (λ b. implies (member barred b) (sound_claims_at c.boards c.rec.now (block_offset b))) }
    {
        let mut left = barred;
        while 0 < left {
            let b = block_set::choose(left);
            let at = BLOCKS_OFFSET + BLOCK_SIZE * b;
            if !arbiter::sound::sound_at(self.rec, at + CLAIMS_OFFSET, self.boards) {
                return false;
            }
            left = block_set::remove(left, b);
        }
        true
    }

    // Whether the tokens and the claims of every block are sound. In most blocks no board is barred, and the waiting set alone decides; the other blocks are
    // put in a set, and only these are looked at again.
    fn sums_sound(&self, sums: &[u32; 32]) -> bool
        requires { (k : ℕ) → k < 32 → get_or sums.now k 0 ≤ 1069563840 }
        ensures { let c = self.now in result ≡ all_below c.blocks (λ b. sound_sums_at c.boards c.tokens c.rec.now (block_offset b) (get_or sums.now b 0)) }
    {
        let mut barred = 0;
        for b in 0..usize::from(self.blocks) {
            let at = BLOCKS_OFFSET + BLOCK_SIZE * b;
            if !tokens_total(self.rec, at, self.tokens, sums[b]) {
                return false;
            }
            if !arbiter::sound::only_boards_wait(self.rec, at + CLAIMS_OFFSET, self.boards) {
                return false;
            }
            let some = arbiter::sound::some_barred(self.rec, at + CLAIMS_OFFSET);
            barred = block_set::insert_if(barred, b, some);
        }
        self.barred_sound(barred)
    }

    // Whether every block is sound.
    fn blocks_sound(&self, sums: &[u32; 32]) -> bool
        requires { (k : ℕ) → k < 32 → get_or sums.now k 0 ≤ 1069563840 }
        ensures { let c = self.now in result ≡ all_below c.blocks (λ b. sound_block_at c.boards c.tokens c.rec.now (block_offset b) (get_or sums.now b 0)) }
    {
        let count = usize::from(self.blocks);
        self.sums_sound(sums)
            && record_lanes::all_lanes_sound(self.rec, count)
            && record_lanes::unused_lanes_empty(self.rec, count, self.boards)
    }
}

// Whether the buffer holds a sound record.
pub fn sound(rec: &[u8]) -> bool
    ensures { result ≡ sound_bytes rec.now }
{
    let Some(candidate) = Candidate::read(rec) else {
        return false;
    };
    let mut sums = [0; 32];
    candidate.mesh_sound(&mut sums) && candidate.blocks_sound(&sums)
}
