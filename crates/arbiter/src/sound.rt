// Whether the claims on a block, as lent bytes, are those of a sound record.
ghost use Rattle.std.specs.Prelude.{◌≡◌, not, ◌&&◌, ◌+◌, ◌≤◌, ◌<◌, eqb, length, get_or};
ghost use Rattle.spec_base.specs.Folds.{all_below, implies};
ghost use Rattle.spec_arbiter.specs.Boards.{member, empty, subset, boards_only};
ghost use Rattle.spec_arbiter.specs.Claims.{waiting, sound_claims};
ghost use Rattle.spec_base.specs.Layout.{slice};
ghost use Rattle.spec_rack.specs.RecordLayout.{claims, claims_at_offset, claims_size};

use super::claims::waiting_at;
use super::sets;
use base::is_zero;
use base::numbers::BigEndian;
use spec_rack::WAITING_OFFSET;

// Whether a board's barring set lies within the waiting set, and is empty where the board waits. Most are empty: that is looked at first.
fn barring_sound(waiting: u16, board: u8, barring: u16) -> bool
    requires { board < 16 }
    ensures { result ≡ (subset barring waiting && implies (member waiting board) (eqb barring empty)) }
{
    if barring == 0 {
        return true;
    }
    if sets::member(waiting, board) {
        return false;
    }
    sets::subset(barring, waiting)
}

// Whether the claims are those of a sound record.
fn sets_sound(rec: &[u8], at: usize, boards: u8) -> bool
    requires { (at + claims_size ≤ length rec.now) × (boards < 16) }
    ensures { result ≡ sound_claims boards (claims_at_offset boards at rec.now) }
{
    let w = waiting_at(rec, at);
    if !sets::boards_only(boards, w) {
        return false;
    }
    for board in 1..=boards {
        let s = u16::read_at(rec, at + 2 * usize::from(board));
        if !barring_sound(w, board, s) {
            return false;
        }
    }
    true
}

// Whether the places without a board are 0: the first, and those above the last board.
fn unused_sets_zero(rec: &[u8], at: usize, boards: u8) -> bool
    requires { (at + claims_size ≤ length rec.now) × (boards < 16) }
    ensures { result ≡ (claims boards).well_formed (slice at claims_size rec.now) }
{
    let used = usize::from(boards) * 2;
    is_zero(&rec[at..at + 2]) & is_zero(&rec[at + 2 + used..at + WAITING_OFFSET])
}

// Whether a board is barred: a byte of the barring sets is not 0.
pub fn some_barred(rec: &[u8], at: usize) -> bool
    requires { at + claims_size ≤ length rec.now }
    ensures { result ≡ not (all_below 32 (λ i. eqb (get_or rec.now (at + i) 0) 0)) }
{
    !is_zero(&rec[at..at + WAITING_OFFSET])
}

// Whether only boards wait. Where no board is barred this alone decides whether the sets are formed and sound.
pub fn only_boards_wait(rec: &[u8], at: usize, boards: u8) -> bool
    requires { (at + claims_size ≤ length rec.now) × (boards < 16) }
    ensures { result ≡ boards_only boards (waiting (claims_at_offset boards at rec.now)) }
{
    sets::boards_only(boards, waiting_at(rec, at))
}

// Whether the sets are formed and sound.
pub fn sound_at(rec: &[u8], at: usize, boards: u8) -> bool
    requires { (at + claims_size ≤ length rec.now) × (boards < 16) }
    ensures { result ≡ ((claims boards).well_formed (slice at claims_size rec.now) && sound_claims boards (claims_at_offset boards at rec.now)) }
{
    unused_sets_zero(rec, at, boards) & sets_sound(rec, at, boards)
}
