// Round trips of step records on running code; `exports` has the reader and the writer for C.
// order: exports, lib
#![tactic(auto)]

ghost use Rattle.std.specs.Prelude.{◌≡◌};
ghost use Rattle.spec_wire.specs.Answers.{Reading};
ghost use Rattle.spec_wire.specs.RoundTrip.{rewritten, replaced};

use spec_wire::{Refusal, Step};

pub mod exports;

// A step, written and read again, is the same step.
pub fn written_and_read(step: Step) -> Result<Step, Refusal>
    ensures { result ≡ Ok step }
{
    let mut out = [0u8; 27];
    let count = wire_writer::write(step, &mut out, 0)?;
    wire_reader::read(&out[..count])
}

// Bytes, read and written again to the front of `out`, are the same bytes.
pub fn read_and_written(bytes: &[u8], out: &mut [u8]) -> Result<usize, Refusal>
    ensures answer { result ≡ rewritten bytes.now out.old }
    ensures buffer { out.new ≡ replaced bytes.now out.old }
{
    let step = wire_reader::read(bytes)?;
    wire_writer::write(step, out, 0)
}
