// The reader and the writer as C calls them: a slice is a pointer and then a length. include/hyaloneth_wire.h declares them.
#![tactic(auto)]

ghost use Rattle.std.specs.Prelude.{◌≡◌};
ghost use Rattle.spec_wire.specs.Reader.{read_record};
ghost use Rattle.spec_wire.specs.FieldArray.{step_of_array, read_result, read_after, write_result};
ghost use Rattle.spec_wire.specs.Writer.{written_of, placed_of};

// Reads a step record. The step's array of twelve numbers goes to the front of `out`; a refusal changes nothing.
#[unsafe(no_mangle)]
pub extern "C" fn hyl_wire_read(bytes: &[u8], out: &mut [u32]) -> u64
    ensures answer { result ≡ read_result (read_record bytes.now) out.old }
    ensures buffer { out.new ≡ read_after (read_record bytes.now) out.old }
{
    wire::exports::hyl_wire_read(bytes, out)
}

// Writes the step that the array encodes, as a step record, into `out` from the offset `at` on; a refusal changes nothing.
#[unsafe(no_mangle)]
pub extern "C" fn hyl_wire_write(numbers: &[u32], out: &mut [u8], at: usize) -> u64
    ensures answer { result ≡ write_result (written_of (step_of_array numbers.now) at out.old) }
    ensures buffer { out.new ≡ placed_of (step_of_array numbers.now) at out.old }
{
    wire::exports::hyl_wire_write(numbers, out, at)
}
