// Load and store: their lines of the refusal table, and what they read and write where they pass.
#![tactic(auto)]

ghost use Rattle.std.specs.Prelude.{◌≡◌};
ghost use Rattle.spec_rack.specs.Rules.{check};
ghost use Rattle.spec_rack.specs.RecordLayout.{get};
ghost use Rattle.record.specs.Needs.{InLayout, SoundRecord};
ghost use Rattle.spec_rack.specs.Entries.{reply_to_step, buffer_after};

use spec_rack::{Answer, TOKEN_COUNT_OFFSET};
use spec_wire::{Refusal, Step};

#[tactic(auto, using(step_checks::proofs::CheckLaws::lines), unfolding(spec_rack::specs::Rules::rules, spec_rack::specs::Rules::answer, spec_rack::specs::Rules::check))]
pub fn load(rec: &[u8], component: u8, block: u8, word: u8) -> Result<Answer, Refusal>
    requires { SoundRecord rec.now }
    ensures { result ≡ reply_to_step rec.now (Step.Load component block word) }
{
    if step_checks::off_rack_word(rec, component, block, word) {
        return Err(Refusal::OffRack);
    }
    let state = record::cells::token_state(rec, block, component);
    if step_tokens::held(state) == 0 {
        return Err(Refusal::NoToken);
    }
    if !state.valid {
        return Err(Refusal::NoData);
    }
    Ok(Answer::Word(record::cells::word(rec, block, component, word)))
}

#[tactic(auto, using(step_checks::proofs::CheckLaws::lines, spec_rack::proofs::GetPut::tokens_is), unfolding(spec_rack::specs::Rules::check))]
fn store_check(rec: &[u8], component: u8, block: u8, word: u8, value: u32) -> Result<(), Refusal>
    requires { InLayout rec.now }
    ensures { result ≡ check (get rec.now) (Step.Store component block word value) }
{
    if step_checks::off_rack_word(rec, component, block, word) {
        return Err(Refusal::OffRack);
    }
    if step_checks::at_home(component) {
        return Err(Refusal::Home);
    }
    let state = record::cells::token_state(rec, block, component);
    if step_tokens::held(state) < u32::from(rec[TOKEN_COUNT_OFFSET]) {
        return Err(Refusal::Short);
    }
    Ok(())
}

#[tactic(auto, unfolding(spec_rack::specs::Rules::rules, spec_rack::specs::Rules::answer, spec_rack::specs::Rules::after))]
pub fn store(
    rec: &mut [u8],
    component: u8,
    block: u8,
    word: u8,
    value: u32,
) -> Result<Answer, Refusal>
    requires { SoundRecord rec.old }
    ensures reply { result ≡ reply_to_step rec.old (Step.Store component block word value) }
    ensures buffer { rec.new ≡ buffer_after rec.old (Step.Store component block word value) }
{
    store_check(rec, component, block, word, value)?;
    record::cells::set_word(rec, block, component, word, value);
    Ok(Answer::Done)
}
