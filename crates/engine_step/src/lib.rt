// The bytes of a step, given to the record in a lent buffer: torn, then unsound, then the rules.
// order: apply, lib
#![tactic(auto)]

pub mod apply;

ghost use Rattle.std.specs.Prelude.{◌≡◌};
ghost use Rattle.spec_rack.specs.Soundness.{sound_bytes};
ghost use Rattle.spec_rack.specs.Entries.{step_reply, step_after};

use spec_rack::Answer;
use spec_wire::Refusal;

// The bytes of a step, given to a record whose soundness is known.
#[tactic(auto, unfolding(spec_rack::specs::Entries::step_reply, spec_rack::specs::Entries::step_after))]
pub fn step_known_sound(rec: &mut [u8], sound: bool, bytes: &[u8]) -> Result<Answer, Refusal>
    requires { sound ≡ sound_bytes rec.old }
    ensures reply { result ≡ step_reply rec.old bytes.now }
    ensures buffer { rec.new ≡ step_after rec.old bytes.now }
{
    let step = wire_reader::read(bytes)?;
    apply::apply(rec, sound, step)
}

// Gives the bytes of a step to the record.
pub fn step(rec: &mut [u8], bytes: &[u8]) -> Result<Answer, Refusal>
    ensures reply { result ≡ step_reply rec.old bytes.now }
    ensures buffer { rec.new ≡ step_after rec.old bytes.now }
{
    let sound = record_soundness::sound(rec);
    step_known_sound(rec, sound, bytes)
}
