// The engine's entries as C calls them: a slice is a pointer and then a length. include/hyaloneth.h declares them.
// The same five names as in `engine`: a crate is a library or an archive and not both, and what an archive exports is its own (docs/ENTRIES.md).
#![tactic(auto)]

ghost use Rattle.std.specs.Prelude.{◌≡◌};
ghost use Rattle.spec_rack.specs.Opening.{open_reply, open_after};
ghost use Rattle.spec_rack.specs.Letter.{letter_reply};
ghost use Rattle.spec_rack.specs.Entries.{step_reply, step_after};
ghost use Rattle.spec_rack.specs.Results.{packed_reply, packed_letter, packed_length};
ghost use Rattle.spec_rack.specs.Lists.{RunResult};

// How many bytes the record of a rack of that many blocks takes.
#[unsafe(no_mangle)]
pub extern "C" fn hyl_record_len(blocks: u32) -> u64
    ensures { result ≡ packed_length blocks }
{
    engine::hyl_record_len(blocks)
}

// Opens a record at the front of a buffer.
#[unsafe(no_mangle)]
pub extern "C" fn hyl_open(rec: &mut [u8], boards: u32, blocks: u32, tokens: u32) -> u64
    ensures reply { result ≡ packed_reply (open_reply boards blocks tokens rec.old) }
    ensures buffer { rec.new ≡ open_after boards blocks tokens rec.old }
{
    engine::hyl_open(rec, boards, blocks, tokens)
}

// Gives the bytes of a step to the record.
#[unsafe(no_mangle)]
pub extern "C" fn hyl_step(rec: &mut [u8], step: &[u8]) -> u64
    ensures reply { result ≡ packed_reply (step_reply rec.old step.now) }
    ensures buffer { rec.new ≡ step_after rec.old step.now }
{
    engine::hyl_step(rec, step)
}

// Gives the step records of a list from `at` on; `at` becomes where the next run starts.
#[unsafe(no_mangle)]
pub extern "C" fn hyl_run(rec: &mut [u8], list: &[u8], at: &mut usize, replies: &mut [u64]) -> usize
    ensures { RunResult rec.old list.now at.old replies.old result rec.new at.new replies.new }
{
    engine::hyl_run(rec, list, at, replies)
}

// The state letter of a board and a block.
#[unsafe(no_mangle)]
pub extern "C" fn hyl_letter(rec: &[u8], component: u32, block: u32) -> u64
    ensures { result ≡ packed_letter (letter_reply rec.now component block) }
{
    engine::hyl_letter(rec, component, block)
}
