// The text of a run, as the program rackrun writes it.
// order: line, lib
#![tactic(auto)]

pub mod line;

ghost use Rattle.std.specs.Prelude.{◌≡◌, ◌+◌, ◌*◌, ◌/◌, ◌≤◌, ◌<◌, length};
ghost use Rattle.spec_base.specs.Placing.{place};
ghost use Rattle.spec_wire.specs.Frames.{frames};
ghost use Rattle.spec_rack.specs.Lists.{replies, after};
ghost use Rattle.spec_rackrun.specs.Rackrun.{lines, opening_reply, opening_after, steps_offset, record_after_run};
ghost use Rattle.spec_rack.specs.RecordLayout.{longest_record};
ghost use Rattle.spec_rackrun.specs.RuledText.{ruled_text};

use line::LINE_SIZE;
use spec_rack::{Answer, LONGEST_RECORD};
use spec_wire::Refusal;

// How many bytes of an input are used.
pub const INPUT_SIZE: usize = 65_536;

// The longest text of them: a line for each three.
pub const TEXT_SIZE: usize = LINE_SIZE * ((INPUT_SIZE + 2) / 3);

// Gives the step records of a list to the record, and places the steps' lines at the front of a buffer.
#[tactic(auto, using(crate::proofs::RunText::frame_inside))]
fn put_steps(rec: &mut [u8], list: &[u8], out: &mut [u8]) -> usize
    requires { (length list.now ≤ 65536) × (16 * ((length list.now + 2) / 3) ≤ length out.old) }
    ensures text { out.new ≡ place 0 (lines 1 (replies rec.old (frames 65536 list.now))) out.old }
    ensures length { result ≡ length (lines 1 (replies rec.old (frames 65536 list.now))) }
    ensures buffer { rec.new ≡ after rec.old (frames 65536 list.now) }
    ensures fits { result ≤ length out.old }
{
    let mut rest = list;
    let mut made: u64 = 0;
    let mut length = 0;
    while !rest.is_empty() {
        let (frame, others) = rest.split_at(wire_frames::frame_end(rest, 0));
        let reply = engine_step::step(rec, frame);
        made += 1;
        length += line::put_line(&mut out[length..], made, reply);
        rest = others;
    }
    length
}

// Opens a rack with the first three bytes of an input.
#[tactic(auto, unfolding(spec_rackrun::specs::Rackrun::opening_reply, spec_rackrun::specs::Rackrun::opening_after))]
fn open_from_input(rec: &mut [u8], input: &[u8]) -> Result<Answer, Refusal>
    ensures reply { result ≡ opening_reply rec.old input.now }
    ensures buffer { rec.new ≡ opening_after rec.old input.now }
{
    let [boards, blocks, tokens, ..] = *input else {
        return Err(Refusal::Torn);
    };
    record_open::open(rec, u32::from(boards), u32::from(blocks), u32::from(tokens))
}

// Where the steps start in an input of so many bytes: there are none where the opening was refused.
fn steps_offset(reply: Result<Answer, Refusal>, count: usize) -> usize
    ensures { result ≡ steps_offset reply count }
{
    match reply {
        Ok(_) => 3,
        Err(_) => count,
    }
}

// The text of an input, which the rules alone decide, at the front of `out`, and its length. The record is in `rec`, where the run leaves it; its type says
// that there is room for the longest, so that no opening is refused for want of it.
pub fn report(input: &[u8], rec: &mut [u8; LONGEST_RECORD], out: &mut [u8; TEXT_SIZE]) -> usize
    ensures text { (result ≡ length (ruled_text input.now)) × (out.new ≡ place 0 (ruled_text input.now) out.old) }
    ensures buffer { rec.new ≡ record_after_run rec.old input.now }
{
    let used = &input[..input.len().min(INPUT_SIZE)];
    let opening = open_from_input(rec, used);
    let steps = &used[steps_offset(opening, used.len())..];
    let first = line::put_line(out, 0, opening);
    first + put_steps(rec, steps, &mut out[first..])
}
