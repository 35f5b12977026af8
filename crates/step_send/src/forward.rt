// Forward: its lines of the refusal table, and the send of all that is held to the active board where it passes.
ghost use Rattle.std.specs.Prelude.{◌≡◌};
ghost use Rattle.spec_wire.specs.Answers.{no_refusal};
ghost use Rattle.spec_rack.specs.Rules.{check, after};
ghost use Rattle.spec_rack.specs.RecordLayout.{get, put};
ghost use Rattle.spec_rack.specs.Entries.{reply_to_step, buffer_after};
ghost use Rattle.record.specs.Needs.{InLayout, SoundRecord};

use super::Transfer;
use super::send::send_tokens;
use arbiter::sets;
use record::owner::is_present;
use spec_rack::Answer;
use spec_wire::{Refusal, Step};

fn forward_check(rec: &[u8], component: u8, block: u8) -> Result<(), Refusal>
    requires { InLayout rec.now }
    ensures { result ≡ check (get rec.now) (Step.Forward component block) }
{
    if step_checks::off_rack(rec, component, block) {
        return Err(Refusal::OffRack);
    }
    let boards = step_checks::waiting_set(rec, block);
    let held = step_tokens::held(record::cells::token_state(rec, block, component));
    let full = step_checks::line(step_checks::mesh_full(rec), Refusal::MeshFull, Ok(()));
    let none = step_checks::line(held == 0, Refusal::NoToken, full);
    let apart = step_checks::line(component == sets::lowest(boards), Refusal::SelfSend, none);
    step_checks::line(boards == 0, Refusal::Unclaimed, apart)
}

// Sends all that is held to the active board, with data where it is valid.
fn forward_tokens(rec: &mut [u8], component: u8, block: u8)
    requires { SoundRecord rec.old × (check (get rec.old) (Step.Forward component block) ≡ no_refusal) }
    ensures { rec.new ≡ put (after (get rec.old) (Step.Forward component block)) rec.old }
{
    let state = record::cells::token_state(rec, block, component);
    let transfer = Transfer {
        component,
        block,
        target: arbiter::claims::active_at(rec, step_checks::claims_offset(block)),
        plain: state.plain,
        owner: is_present(state.owner),
        data: state.valid,
    };
    send_tokens(rec, transfer);
}

// A forward: refused, with nothing changed, or made.
#[tactic(auto, unfolding(spec_rack::specs::Rules::rules, spec_rack::specs::Rules::answer))]
pub fn forward(rec: &mut [u8], component: u8, block: u8) -> Result<Answer, Refusal>
    requires { SoundRecord rec.old }
    ensures reply { result ≡ reply_to_step rec.old (Step.Forward component block) }
    ensures buffer { rec.new ≡ buffer_after rec.old (Step.Forward component block) }
{
    forward_check(rec, component, block)?;
    forward_tokens(rec, component, block);
    Ok(Answer::Done)
}
