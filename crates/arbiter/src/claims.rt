// The claims on a block, in the bytes of a lent record from `at` on: sixteen sets of two bytes, the high byte first, then the waiting set.
// Set i is the barring set of board i; a set without a board is 0.
// A struct of `rec` and `at`, with the bound as a ghost field, is no plainer: a contract then says `claims_at_offset n self.entry.at self.entry.rec.now`, the
// changes on a `&mut` need a second struct, and each caller makes one for a single call. An array of the 34 bytes adds a step to each caller's proof.
ghost use Rattle.std.specs.Prelude.{◌≡◌, ℕ, ◌+◌, ◌≤◌, ◌<◌, length};
ghost use Rattle.spec_arbiter.specs.Claims.{waiting, active, raise_check, lower_check};
ghost use Rattle.spec_rack.specs.RecordLayout.{claims_at_offset, claims_size};

use super::sets;
use base::numbers::BigEndian;
use spec_rack::WAITING_OFFSET;
use spec_wire::Refusal;

// The waiting set.
pub fn waiting_at(rec: &[u8], at: usize) -> u16
    requires { at + claims_size ≤ length rec.now }
    ensures { (n : ℕ) → result ≡ waiting (claims_at_offset n at rec.now) }
{
    u16::read_at(rec, at + WAITING_OFFSET)
}

// The active board: the lowest-numbered waiting board, and 16 where no board waits.
pub fn active_at(rec: &[u8], at: usize) -> u8
    requires { at + claims_size ≤ length rec.now }
    ensures { (n : ℕ) → result ≡ active (claims_at_offset n at rec.now) }
{
    sets::lowest(waiting_at(rec, at))
}

// The verdict on a board's raise.
pub fn raise_check(rec: &[u8], at: usize, board: u8) -> Result<(), Refusal>
    requires { (at + claims_size ≤ length rec.now) × (1 ≤ board) × (board < 16) }
    ensures { (n : ℕ) → board ≤ n → n < 16 → result ≡ raise_check (claims_at_offset n at rec.now) board }
{
    let waits = sets::member(waiting_at(rec, at), board);
    if waits {
        return Err(Refusal::Waiting);
    }
    let own = u16::read_at(rec, at + 2 * usize::from(board));
    if own != 0 {
        return Err(Refusal::Barred);
    }
    Ok(())
}

// The verdict on a board's lower.
pub fn lower_check(rec: &[u8], at: usize, board: u8) -> Result<(), Refusal>
    requires { (at + claims_size ≤ length rec.now) × (board < 16) }
    ensures { (n : ℕ) → result ≡ lower_check (claims_at_offset n at rec.now) board }
{
    let w = waiting_at(rec, at);
    if sets::member(w, board) {
        return Ok(());
    }
    Err(Refusal::NotWaiting)
}
