// Send: its lines of the refusal table, and the tokens taken and the message appended where it passes.
ghost use Rattle.std.specs.Prelude.{◌≡◌, [], ◌∷◌, ◌++◌};
ghost use Rattle.spec_rack.specs.Rack.{cell_at};
ghost use Rattle.spec_rack.specs.Rules.{check, mesh_full};
ghost use Rattle.spec_rack.specs.RecordLayout.{get, put};
ghost use Rattle.spec_rack.specs.Entries.{reply_to_step, buffer_after};
ghost use Rattle.record.specs.Needs.{InLayout, SoundRecord};
ghost use Rattle.record.specs.Changes.{with_mesh};
ghost use Rattle.step_checks.specs.Sendable.{CanSend};
ghost use Rattle.step_send.specs.Transfers.{send_of, message_of, transferred, token_lines};

use super::Transfer;
use record::TokenState;
use record::owner::is_present;
use spec_rack::{Answer, BOARD_COUNT_OFFSET, Message, MessageHeader, Owner};
use spec_wire::Refusal;

// What a send asks of the sender's state and the mesh, once its ends and its block are known and free.
fn token_lines(rec: &[u8], state: TokenState, transfer: Transfer) -> Result<(), Refusal>
    requires { InLayout rec.now }
    ensures { result ≡ token_lines state transfer (mesh_full (get rec.now)) }
{
    let full = step_checks::line(step_checks::mesh_full(rec), Refusal::MeshFull, Ok(()));
    let stale = step_checks::line(transfer.data & !state.valid, Refusal::NoData, full);
    let may_go = step_tokens::may_go_bare(state.owner, transfer.target);
    let bare = step_checks::line(
        transfer.owner & !transfer.data & !may_go,
        Refusal::BareOwner,
        stale,
    );
    let lacks = (state.plain < transfer.plain) | (transfer.owner & !is_present(state.owner));
    let short = step_checks::line(lacks, Refusal::NotHeld, bare);
    let count = step_tokens::token_count(transfer.plain, transfer.owner);
    step_checks::line(count == 0, Refusal::Empty, short)
}

fn send_check(rec: &[u8], transfer: Transfer) -> Result<(), Refusal>
    requires { InLayout rec.now }
    ensures { result ≡ check (get rec.now) (send_of transfer) }
{
    if step_checks::off_rack(rec, transfer.component, transfer.block) {
        return Err(Refusal::OffRack);
    }
    let state = record::cells::token_state(rec, transfer.block, transfer.component);
    let below = token_lines(rec, state, transfer);
    let boards = step_checks::waiting_set(rec, transfer.block);
    let claimed = step_checks::line(step_checks::claimed(boards), Refusal::Claimed, below);
    let apart = step_checks::line(
        transfer.component == transfer.target,
        Refusal::SelfSend,
        claimed,
    );
    step_checks::line(
        rec[BOARD_COUNT_OFFSET] < transfer.target,
        Refusal::OffRack,
        apart,
    )
}

// Appends the message, with the component's words where it has data.
fn append_message(rec: &mut [u8], transfer: Transfer, token: Owner)
    requires { CanSend rec.old transfer.component transfer.block transfer.plain × (token ≡ (cell_at (get rec.old) transfer.block transfer.component).owner) }
    ensures { rec.new ≡ put (with_mesh (get rec.old) ((get rec.old).mesh ++ message_of (get rec.old) transfer ∷ [])) rec.old }
{
    let header = MessageHeader {
        sender: transfer.component,
        target: transfer.target,
        block: transfer.block,
        plain: transfer.plain,
        owner: step_tokens::taken_owner(transfer.owner, token),
        data: transfer.data,
    };
    let words = if transfer.data {
        record::cells::words_of(rec, transfer.block, transfer.component)
    } else {
        [0; 8]
    };
    record_mesh::append(rec, Message { header, words });
}

// Takes the tokens from the component and appends the message.
pub fn send_tokens(rec: &mut [u8], transfer: Transfer)
    requires { CanSend rec.old transfer.component transfer.block transfer.plain }
    ensures { rec.new ≡ put (transferred (get rec.old) transfer) rec.old }
{
    let state = record::cells::token_state(rec, transfer.block, transfer.component);
    append_message(rec, transfer, state.owner);
    let kept = step_tokens::without_tokens(state, transfer.plain, transfer.owner);
    record::cells::set_token_state(rec, transfer.block, transfer.component, kept);
}

// A send: refused, with nothing changed, or made.
#[tactic(auto, unfolding(spec_rack::specs::Rules::rules, spec_rack::specs::Rules::answer))]
pub fn send(rec: &mut [u8], transfer: Transfer) -> Result<Answer, Refusal>
    requires { SoundRecord rec.old }
    ensures reply { result ≡ reply_to_step rec.old (send_of transfer) }
    ensures buffer { rec.new ≡ buffer_after rec.old (send_of transfer) }
{
    send_check(rec, transfer)?; // a refused send takes no token
    send_tokens(rec, transfer);
    Ok(Answer::Done)
}
