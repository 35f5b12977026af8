// Words of four bytes, the high byte first.
ghost use Rattle.std.specs.Prelude.{◌≡◌, ◌+◌, ◌*◌, ◌≤◌, ◌<◌, length};
ghost use Rattle.spec_base.specs.Layout.{slice, modify_at};
ghost use Rattle.spec_rack.specs.RecordLayout.{words, words_size};

use base::numbers::BigEndian;
use std::array;

// The eight words at `at`.
pub fn words_at(s: &[u8], at: usize) -> [u32; 8]
    requires { at + words_size ≤ length s.now }
    ensures { result ≡ words.read (slice at words_size s.now) }
{
    array::from_fn(|i| u32::read_at(s, at + 4 * i))
}

// Writes eight words at `at`.
pub fn put_words(s: &mut [u8], at: usize, values: [u32; 8])
    requires { at + words_size ≤ length s.old }
    ensures { s.new ≡ modify_at at words_size (words.write values) s.old }
{
    for (i, value) in values.iter().enumerate() {
        value.write_at(s, at + 4 * i);
    }
}
