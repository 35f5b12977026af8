// One step, with its reply as one number.
ghost use Rattle.std.specs.Prelude.{◌≡◌};
ghost use Rattle.spec_rack.specs.Soundness.{sound_bytes};
ghost use Rattle.spec_rack.specs.Entries.{step_reply, step_after};
ghost use Rattle.spec_rack.specs.Results.{packed_reply};

use engine_results::reply;

// Gives the bytes of a step to a record whose soundness is known. `hyl_step` and `hyl_run` both call this, so that the reply is packed where it is made and
// does not go through memory.
pub fn step_result(rec: &mut [u8], sound: bool, step: &[u8]) -> u64
    requires { sound ≡ sound_bytes rec.old }
    ensures reply { result ≡ packed_reply (step_reply rec.old step.now) }
    ensures buffer { rec.new ≡ step_after rec.old step.now }
{
    reply(engine_step::step_known_sound(rec, sound, step))
}
