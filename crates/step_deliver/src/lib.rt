// Deliver: tokens from the mesh into a cell. Its line of the refusal table, and the change where it passes.
#![tactic(auto)]

ghost use Rattle.std.specs.Prelude.{◌≡◌};
ghost use Rattle.spec_wire.specs.Answers.{no_refusal};
ghost use Rattle.spec_rack.specs.Rack.{cell_at, message_at};
ghost use Rattle.spec_rack.specs.Rules.{with_tokens, check};
ghost use Rattle.spec_rack.specs.RecordLayout.{get, put};
ghost use Rattle.record.specs.Needs.{SoundRecord};
ghost use Rattle.spec_rack.specs.Entries.{reply_to_step, buffer_after};
ghost use Rattle.record.specs.Changes.{replace_cell};
ghost use Rattle.step_deliver.specs.Filling.{CanFill};

use spec_rack::{Answer, MESSAGE_COUNT_OFFSET, MessageHeader};
use spec_wire::{Refusal, Step};

// Gives the target what the message at a position brings: its words where it has data, and its tokens.
fn fill_target(rec: &mut [u8], position: u8, header: MessageHeader)
    requires { CanFill rec.old position header }
    ensures { rec.new ≡ put (replace_cell (get rec.old) header.block header.target (with_tokens (cell_at (get rec.old) header.block header.target) (message_at (get rec.old) position))) rec.old }
{
    if header.data {
        record_mesh::copy_words(rec, position, header.block, header.target);
    }
    let state = record::cells::token_state(rec, header.block, header.target);
    let filled = step_tokens::with_tokens(state, header);
    record::cells::set_token_state(rec, header.block, header.target, filled);
}

// Fills the target, then takes the message out of the mesh: the removal moves other messages over its words. The reply is of the message that was there.
fn deliver_message(rec: &mut [u8], position: u8) -> Result<Answer, Refusal>
    requires { SoundRecord rec.old × (check (get rec.old) (Step.Deliver position) ≡ no_refusal) }
    ensures reply { result ≡ reply_to_step rec.old (Step.Deliver position) }
    ensures buffer { rec.new ≡ buffer_after rec.old (Step.Deliver position) }
{
    let header = record_mesh::header_at(rec, position);
    fill_target(rec, position, header);
    record_mesh::remove(rec, position);
    Ok(Answer::Served {
        component: header.target,
        block: header.block,
    })
}

// A deliver: refused, with nothing changed, or made.
pub fn deliver(rec: &mut [u8], position: u8) -> Result<Answer, Refusal>
    requires { SoundRecord rec.old }
    ensures reply { result ≡ reply_to_step rec.old (Step.Deliver position) }
    ensures buffer { rec.new ≡ buffer_after rec.old (Step.Deliver position) }
{
    if rec[MESSAGE_COUNT_OFFSET] <= position {
        return Err(Refusal::NoMessage);
    }
    deliver_message(rec, position)
}
