// A raise and a lower, made in the bytes of the claims on a block.
ghost use Rattle.std.specs.Prelude.{◌≡◌, ℕ, ◌+◌, ◌≤◌, ◌<◌, true, length};
ghost use Rattle.spec_base.specs.Layout.{slice};
ghost use Rattle.spec_arbiter.specs.Claims.{raised, lowered};
ghost use Rattle.spec_rack.specs.RecordLayout.{claims, claims_at_offset, put_claims, claims_size};

use super::sets;
use base::numbers::BigEndian;
use spec_rack::WAITING_OFFSET;

// The board joins the waiting set.
pub fn raise_at(rec: &mut [u8], at: usize, board: u8)
    requires { (at + claims_size ≤ length rec.old) × (board < 16) }
    ensures { (n : ℕ) → n < 16 → (claims n).well_formed (slice at claims_size rec.old) ≡ true → rec.new ≡ put_claims n at (raised (claims_at_offset n at rec.old) board) rec.old }
{
    let place = at + WAITING_OFFSET;
    let w = u16::read_at(rec, place);
    let more = sets::insert(w, board);
    more.write_at(rec, place);
}

// The board leaves the waiting set and every barring set; its own barring set becomes the waiting set that remains.
pub fn lower_at(rec: &mut [u8], at: usize, boards: u8, board: u8)
    requires { (at + claims_size ≤ length rec.old) × (1 ≤ board) × (board ≤ boards) × (boards < 16) × ((claims boards).well_formed (slice at claims_size rec.old) ≡ true) }
    ensures { rec.new ≡ put_claims boards at (lowered (claims_at_offset boards at rec.old) board) rec.old }
{
    for number in 1..=boards {
        let place = at + 2 * usize::from(number);
        let s = u16::read_at(rec, place);
        let left = sets::remove(s, board);
        left.write_at(rec, place);
    }
    let waiting = at + WAITING_OFFSET;
    let w = u16::read_at(rec, waiting);
    let others = sets::remove(w, board);
    others.write_at(rec, waiting);
    let own = at + 2 * usize::from(board);
    others.write_at(rec, own);
}
