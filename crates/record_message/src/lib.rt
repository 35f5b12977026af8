// Whether a message is well-formed and sound, by its bytes.
#![tactic(auto)]

ghost use Rattle.std.specs.Prelude.{◌≡◌, ◌+◌, ◌≤◌, length};
ghost use Rattle.spec_rack.specs.RecordLayout.{message_size};
ghost use Rattle.record_message.specs.Messages.{token_sum_at, endpoints_known, sound_bare_owner, sound_flags, words_sound, sound_message_at};

use base::is_zero;
use spec_rack::{
    DATA_OFFSET, MESSAGE_BLOCK_OFFSET, MESSAGE_DIRTY_OFFSET, MESSAGE_OWNER_OFFSET,
    MESSAGE_PLAIN_OFFSET, MESSAGE_SIZE, MESSAGE_WORDS_OFFSET, MESSAGE_ZERO_OFFSET, SENDER_OFFSET,
    TARGET_OFFSET,
};

// Plain tokens in the low 16 bits and owners above them, so that one sum counts both: of the two bytes at `at`.
pub fn token_sum(rec: &[u8], at: usize) -> u32
    requires { at + 2 ≤ length rec.now }
    ensures { (result ≡ token_sum_at rec.now at) × (result ≤ 16711935) }
{
    u32::from(rec[at]) + u32::from(rec[at + 1]) * 65536
}

// Whether a message's ends are known and differ, and its block is known.
fn endpoints_known(rec: &[u8], at: usize, boards: u8, blocks: u8) -> bool
    requires { at + 3 ≤ length rec.now }
    ensures { result ≡ endpoints_known boards blocks rec.now at }
{
    let sender = rec[at + SENDER_OFFSET];
    let target = rec[at + TARGET_OFFSET];
    sender <= boards
        && target <= boards
        && sender != target
        && rec[at + MESSAGE_BLOCK_OFFSET] < blocks
}

// Whether an owner without data may be in flight: one owner, clean, on its way home.
fn bare_owner_sound(owner: u8, dirty: u8, target: u8) -> bool
    ensures { result ≡ sound_bare_owner owner dirty target }
{
    (owner == 1) & (dirty == 0) & (target == 0)
}

// Whether a message's owner has data or goes home clean, it carries a token, its mark is dirty only beside an owner, and the last byte of its header is 0.
fn sound_flags(rec: &[u8], at: usize) -> bool
    requires { at + 8 ≤ length rec.now }
    ensures { result ≡ sound_flags rec.now at }
{
    let plain = rec[at + MESSAGE_PLAIN_OFFSET];
    let owner = rec[at + MESSAGE_OWNER_OFFSET];
    let data = rec[at + DATA_OFFSET];
    let dirty = rec[at + MESSAGE_DIRTY_OFFSET];
    // The mark and the zero behind it as one number, so that one comparison decides them.
    let dirty_and_zero = u16::from_le_bytes([dirty, rec[at + MESSAGE_ZERO_OFFSET]]);
    // With a return of its own: joined to the rest by ||, it took 4 instructions more for each message.
    if data < owner && !bare_owner_sound(owner, dirty, rec[at + TARGET_OFFSET]) {
        return false;
    }
    (plain != 0 || owner != 0) && dirty_and_zero <= u16::from(owner)
}

// Whether a message's data mark is 0 or 1, and without data its words are 0.
fn words_sound(rec: &[u8], at: usize) -> bool
    requires { at + message_size ≤ length rec.now }
    ensures { result ≡ words_sound rec.now at }
{
    match rec[at + DATA_OFFSET] {
        0 => is_zero(&rec[at + MESSAGE_WORDS_OFFSET..at + MESSAGE_SIZE]),
        1 => true,
        _ => false,
    }
}

// Whether the message at `at` is well-formed and sound.
#[tactic(auto, using(crate::proofs::MessageLaws::message_tests))]
pub fn sound_message_at(rec: &[u8], at: usize, boards: u8, blocks: u8) -> bool
    requires { at + message_size ≤ length rec.now }
    ensures { result ≡ sound_message_at boards blocks rec.now at }
{
    endpoints_known(rec, at, boards, blocks) && sound_flags(rec, at) && words_sound(rec, at)
}
