// Raise and lower: their lines of the refusal table, and what they make of the claims on a block where they pass. One function for both would take the check
// and the change as closures, with a clause on each: no plainer than these lines.
#![tactic(auto)]

ghost use Rattle.std.specs.Prelude.{◌≡◌};
ghost use Rattle.spec_rack.specs.Rules.{check};
ghost use Rattle.spec_rack.specs.RecordLayout.{get};
ghost use Rattle.record.specs.Needs.{InLayout, SoundRecord};
ghost use Rattle.spec_rack.specs.Entries.{reply_to_step, buffer_after};

use spec_rack::{Answer, BOARD_COUNT_OFFSET};
use spec_wire::{Refusal, Step};

fn raise_check(rec: &[u8], component: u8, block: u8) -> Result<(), Refusal>
    requires { InLayout rec.now }
    ensures { result ≡ check (get rec.now) (Step.Raise component block) }
{
    step_checks::board_check(rec, component, block)?;
    arbiter::claims::raise_check(rec, step_checks::claims_offset(block), component)
}

fn lower_check(rec: &[u8], component: u8, block: u8) -> Result<(), Refusal>
    requires { InLayout rec.now }
    ensures { result ≡ check (get rec.now) (Step.Lower component block) }
{
    step_checks::board_check(rec, component, block)?;
    arbiter::claims::lower_check(rec, step_checks::claims_offset(block), component)
}

#[tactic(auto, unfolding(spec_rack::specs::Rules::rules, spec_rack::specs::Rules::answer))]
pub fn raise(rec: &mut [u8], component: u8, block: u8) -> Result<Answer, Refusal>
    requires { SoundRecord rec.old }
    ensures reply { result ≡ reply_to_step rec.old (Step.Raise component block) }
    ensures buffer { rec.new ≡ buffer_after rec.old (Step.Raise component block) }
{
    raise_check(rec, component, block)?;
    arbiter::change::raise_at(rec, step_checks::claims_offset(block), component);
    Ok(Answer::Done)
}

#[tactic(auto, unfolding(spec_rack::specs::Rules::rules, spec_rack::specs::Rules::answer))]
pub fn lower(rec: &mut [u8], component: u8, block: u8) -> Result<Answer, Refusal>
    requires { SoundRecord rec.old }
    ensures reply { result ≡ reply_to_step rec.old (Step.Lower component block) }
    ensures buffer { rec.new ≡ buffer_after rec.old (Step.Lower component block) }
{
    lower_check(rec, component, block)?;
    let boards = rec[BOARD_COUNT_OFFSET];
    arbiter::change::lower_at(rec, step_checks::claims_offset(block), boards, component);
    Ok(Answer::Done)
}
