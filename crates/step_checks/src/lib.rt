// The refusal table's conditions, evaluated on the record's bytes. `InLayout` and `SoundRecord` stay clauses, here and in the steps: a struct around the lent
// slice owes its fact at each write (tried), and between a send's tokens and its message the record is not sound. `component` and `block` stay two numbers:
// a Step has them apart, and so have the clauses.
#![tactic(auto)]

ghost use Rattle.std.specs.Prelude.{◌≡◌, ◌||◌, not, ◌+◌, ◌*◌, ◌<◌, eqb, ltb, get_or};
ghost use Rattle.spec_wire.specs.Answers.{no_refusal};
ghost use Rattle.spec_wire.specs.Refusals.{when◌refuse◌else◌};
ghost use Rattle.spec_arbiter.specs.Boards.{empty};
ghost use Rattle.spec_arbiter.specs.Claims.{waiting};
ghost use Rattle.spec_rack.specs.Rack.{claims_at};
ghost use Rattle.spec_rack.specs.Rules.{off_rack, mesh_full};
ghost use Rattle.spec_rack.specs.RecordLayout.{block_offset, claims_offset, get, blocks_in};
ghost use Rattle.record.specs.Needs.{InLayout};
ghost use Rattle.step_checks.specs.Checked.{board_lines};

use spec_rack::{
    BLOCK_COUNT_OFFSET, BLOCK_SIZE, BLOCKS_OFFSET, BOARD_COUNT_OFFSET, CLAIMS_OFFSET, MESH_LIMIT,
    MESSAGE_COUNT_OFFSET,
};
use spec_wire::Refusal;

// Whether the component is above N or the block not below B.
#[tactic(auto, using(spec_rack::proofs::GetPut::boards_is, spec_rack::proofs::GetPut::blocks_is))]
pub fn off_rack(rec: &[u8], component: u8, block: u8) -> bool
    requires { InLayout rec.now }
    ensures { result ≡ off_rack (get rec.now) component block }
{
    rec[BOARD_COUNT_OFFSET] < component || rec[BLOCK_COUNT_OFFSET] <= block
}

// Whether the component or the block is off the rack, or the word is above 7.
pub fn off_rack_word(rec: &[u8], component: u8, block: u8, word: u8) -> bool
    requires { InLayout rec.now }
    ensures { result ≡ (off_rack (get rec.now) component block || ltb 7 word) }
{
    off_rack(rec, component, block) || 7 < word
}

// Whether the component is the home memory.
pub fn at_home(component: u8) -> bool
    ensures { result ≡ eqb component 0 }
{
    component == 0
}

// What a raise and a lower ask first: a component and a block on the rack, and no home memory.
#[tactic(auto, using(crate::proofs::CheckLaws::lines), unfolding(crate::specs::Checked::board_lines))]
pub fn board_check(rec: &[u8], component: u8, block: u8) -> Result<(), Refusal>
    requires { InLayout rec.now }
    ensures { result ≡ board_lines (get rec.now) component block no_refusal }
{
    if off_rack(rec, component, block) {
        return Err(Refusal::OffRack);
    }
    if at_home(component) {
        return Err(Refusal::Home);
    }
    Ok(())
}

// The offset of a block's claims.
pub fn claims_offset(block: u8) -> usize
    ensures { result ≡ block_offset block + claims_offset }
{
    BLOCKS_OFFSET + BLOCK_SIZE * usize::from(block) + CLAIMS_OFFSET
}

// The waiting set of a block.
pub fn waiting_set(rec: &[u8], block: u8) -> u16
    requires { InLayout rec.now × (block < blocks_in rec.now) }
    ensures { result ≡ waiting (claims_at (get rec.now) block) }
{
    arbiter::claims::waiting_at(rec, claims_offset(block))
}

// Whether the boards that wait for a block stop sends of it: any of them does, whoever sends; the active board's own send is stopped too.
pub fn claimed(boards: u16) -> bool
    ensures { result ≡ not (eqb boards empty) }
{
    boards != 0
}

// Whether 64 messages are in flight.
#[tactic(auto, using(spec_rack::proofs::GetPut::mesh_is), unfolding(spec_rack::specs::Rack::mesh_limit))]
pub fn mesh_full(rec: &[u8]) -> bool
    requires { InLayout rec.now }
    ensures { result ≡ mesh_full (get rec.now) }
{
    MESH_LIMIT <= rec[MESSAGE_COUNT_OFFSET]
}

// A line of the table: the refusal if the test passes, else the verdict of the lines below. A table of such lines has no branch.
#[tactic(auto, using(crate::proofs::CheckLaws::lines))]
pub fn line(test: bool, refusal: Refusal, below: Result<(), Refusal>) -> Result<(), Refusal>
    ensures { result ≡ (when test refuse refusal else below) }
{
    if test { Err(refusal) } else { below }
}
