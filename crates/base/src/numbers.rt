// Numbers in lent bytes, the high byte first.
ghost use Rattle.std.specs.Prelude.{◌≡◌, ℕ, ◌+◌, ◌≤◌, length};
ghost use Rattle.spec_base.specs.Layout.{slice, modify_at, big};
ghost use Rattle.spec_base.specs.Number.{digits};

// A number that takes as many bytes in a buffer as its type has.
pub trait BigEndian: Copy {
    ghost size: { ℕ };

    ghost value: { Self → ℕ };

    // The number in the bytes from `at` on.
    fn read_at(s: &[u8], at: usize) -> Self
        requires { at + size ≤ length s.now }
        ensures { value result ≡ (big size).read (slice at size s.now) };

    // Writes the number into the bytes from `at` on.
    fn write_at(self, s: &mut [u8], at: usize)
        requires { at + size ≤ length s.old }
        ensures { s.new ≡ modify_at at size ((big size).write (value self)) s.old };
}

impl BigEndian for u16 {
    ghost size = { 2 };

    ghost value = { λ n. n };

    fn read_at(s: &[u8], at: usize) -> u16 {
        u16::from_be_bytes([s[at], s[at + 1]])
    }

    fn write_at(self, s: &mut [u8], at: usize) {
        s[at..at + 2].copy_from_slice(&self.to_be_bytes());
    }
}

impl BigEndian for u32 {
    ghost size = { 4 };

    ghost value = { λ n. n };

    fn read_at(s: &[u8], at: usize) -> u32 {
        u32::from_be_bytes([s[at], s[at + 1], s[at + 2], s[at + 3]])
    }

    fn write_at(self, s: &mut [u8], at: usize) {
        s[at..at + 4].copy_from_slice(&self.to_be_bytes());
    }
}

// Writes the number over the whole of `out`, high byte first.
pub fn put_number(out: &mut [u8], number: u64)
    ensures { out.new ≡ digits (length out.old) number }
{
    let mut rest = number;
    // By index: of bytes that are written through `iter_mut().rev()` the proof knows only how many there are.
    for i in (0..out.len()).rev() {
        out[i] = (rest % 256) as u8;
        rest /= 256;
    }
}
