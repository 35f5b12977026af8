// What a block's components have, decided over the sixteen places of its lanes: loops of constant length in which every place does the same.
#![tactic(auto)]

ghost use Rattle.std.specs.Prelude.{◌≡◌, not, ◌&&◌, ℕ, ◌+◌, ◌*◌, ◌≤◌, ◌<◌, eqb, leb, length, get_or};
ghost use Rattle.std.specs.Int.Bits.{bit_or};
ghost use Rattle.spec_base.specs.Folds.{toℕ, all_below};
ghost use Rattle.spec_rack.specs.RecordLayout.{owner_offset, block_offset, record_length, lanes_size};
ghost use Rattle.record_lanes.specs.Lanes.{sound_lanes, unused_lanes_empty, lane_sum, low_first};

use spec_rack::{BLOCK_SIZE, BLOCKS_OFFSET, DIRTY_OFFSET, LANE_SIZE, OWNER_OFFSET, VALID_OFFSET};

// The sum of the sixteen bytes at `at`.
pub fn sum16(s: &[u8], at: usize) -> u32
    requires { at + 16 ≤ length s.now }
    ensures { (result ≡ lane_sum s.now at) × (result ≤ 4080) }
{
    s[at..at + LANE_SIZE]
        .iter()
        .map(|byte| u32::from(*byte))
        .sum()
}

// Whether owner, valid and dirty are 0 or 1, dirty only beside the owner, the owner valid, and valid only beside a token: by how much a byte is above the
// next, which the machine has as one instruction for sixteen bytes.
fn lane_sound(plain: u8, owner: u8, valid: u8, dirty: u8) -> bool
    ensures { result ≡ (leb dirty owner && leb owner valid && leb valid (toℕ (not (eqb (plain + owner) 0)))) }
{
    let held = u8::from((plain != 0) | (owner != 0));
    dirty.saturating_sub(owner) | owner.saturating_sub(valid) | valid.saturating_sub(held) == 0
}

// Whether the marks at all sixteen places are sound.
fn lanes_sound(s: &[u8], at: usize) -> bool
    requires { at + lanes_size ≤ length s.now }
    ensures { result ≡ sound_lanes s.now at }
{
    let mut sound = true;
    for component in 0..LANE_SIZE {
        sound &= lane_sound(
            s[at + component],
            s[at + OWNER_OFFSET + component],
            s[at + VALID_OFFSET + component],
            s[at + DIRTY_OFFSET + component],
        );
    }
    sound
}

// Whether the marks of all blocks are sound.
pub fn all_lanes_sound(s: &[u8], count: usize) -> bool
    requires { (count ≤ 32) × (record_length count ≤ length s.now) }
    ensures { result ≡ all_below count (λ b. sound_lanes s.now (block_offset b)) }
{
    for b in 0..count {
        if !lanes_sound(s, BLOCKS_OFFSET + BLOCK_SIZE * b) {
            return false;
        }
    }
    true
}

// The eight bytes at `at` as one number, the low byte first, as the machine loads them.
fn eight(s: &[u8], at: usize) -> u64
    requires { at + 8 ≤ length s.now }
    ensures { result ≡ low_first (λ i. get_or s.now (at + i) 0) 8 }
{
    u64::from_le_bytes(s[at..at + 8].try_into().unwrap())
}

// Joins the plain counts and owners of eight components of a block to what was seen of them in other blocks.
fn gather_holders(s: &[u8], at: usize, seen: u64) -> u64
    requires { at + 24 ≤ length s.now }
    ensures { result ≡ bit_or (bit_or seen (low_first (λ i. get_or s.now (at + i) 0) 8)) (low_first (λ i. get_or s.now (at + owner_offset + i) 0) 8) }
{
    seen | eight(s, at) | eight(s, at + OWNER_OFFSET)
}

// Whether components above the last board hold nothing in any block: what was seen in all blocks is looked at once, in two halves of eight places.
// A lane has 16 places, so with 15 boards there is no such component.
pub fn unused_lanes_empty(s: &[u8], count: usize, boards: u8) -> bool
    requires { (boards < 16) × (count ≤ 32) × (record_length count ≤ length s.now) }
    ensures { result ≡ all_below count (λ b. unused_lanes_empty boards s.now (block_offset b)) }
{
    if boards == 15 {
        return true;
    }
    // With one u128 in place of the halves it took 2 instructions more for each block.
    let mut low = 0;
    let mut high = 0;
    for b in 0..count {
        let at = BLOCKS_OFFSET + BLOCK_SIZE * b;
        low = gather_holders(s, at, low);
        high = gather_holders(s, at + 8, high);
    }
    if boards < 7 {
        let used = boards + 1;
        return (low >> (8 * used) == 0) & (high == 0);
    }
    let used = boards - 7;
    high >> (8 * used) == 0
}
