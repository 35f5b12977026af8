// A step on a record whose soundness is known, by the function of its kind.
ghost use Rattle.std.specs.Prelude.{◌≡◌, Ok};
ghost use Rattle.spec_rack.specs.Rules.{reply};
ghost use Rattle.spec_rack.specs.Entries.{outcome, buffer_after_outcome};
ghost use Rattle.spec_rack.specs.Soundness.{sound_bytes};

use spec_rack::Answer;
use spec_wire::{Refusal, Step};
use step_send::Transfer;

// A step on a record whose soundness is known: refused, with nothing changed, or made. Soundness is asked by each arm's guard, and not once before the
// match: so the compiler goes from the reader's arm of a kind straight to the arm here.
#[tactic(auto, using(crate::proofs::ReadyForStep::ready, step_checks::proofs::StepOutcome::load_leaves))]
pub fn apply(rec: &mut [u8], sound: bool, step: Step) -> Result<Answer, Refusal>
    requires { sound ≡ sound_bytes rec.old }
    ensures reply { result ≡ reply (outcome (Ok step) rec.old) }
    ensures buffer { rec.new ≡ buffer_after_outcome rec.old (outcome (Ok step) rec.old) }
{
    match step {
        Step::Load {
            component,
            block,
            word,
        } if sound => step_access::load(rec, component, block, word),
        Step::Store {
            component,
            block,
            word,
            value,
        } if sound => step_access::store(rec, component, block, word, value),
        Step::Send {
            component,
            block,
            target,
            plain,
            owner,
            data,
        } if sound => step_send::send::send(
            rec,
            Transfer {
                component,
                block,
                target,
                plain,
                owner,
                data,
            },
        ),
        Step::Deliver { position } if sound => step_deliver::deliver(rec, position),
        Step::Raise { component, block } if sound => step_claims::raise(rec, component, block),
        Step::Lower { component, block } if sound => step_claims::lower(rec, component, block),
        Step::Forward { component, block } if sound => step_send::forward::forward(
            rec, component, block,
        ),
        _ => Err(Refusal::Unsound),
    }
}
