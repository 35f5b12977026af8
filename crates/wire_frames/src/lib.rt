// A list of step records in one slice, split into frames by their lengths.
#![tactic(auto)]

ghost use Rattle.std.specs.Prelude.{◌≡◌, ◌+◌, ◌≤◌, ◌<◌, length, drop};
ghost use Rattle.spec_wire.specs.Frames.{frame_size};

use base::numbers::BigEndian;

// The end of the step record that starts at `at`, which is below the end of the list.
#[tactic(auto, using(crate::proofs::Framing::cutting), unfolding(spec_wire::specs::Frames::frame_size))]
pub fn frame_end_within(list: &[u8], at: usize) -> usize
    requires { at < length list.now }
    ensures { (result ≡ at + frame_size (drop at list.now)) × (at < result) × (result ≤ length list.now) }
{
    let left = list.len() - at;
    if left < 3 {
        return list.len();
    }
    let size = 3 + usize::from(u16::read_at(list, at + 1));
    if left < size {
        return list.len();
    }
    at + size
}

// As `frame_end_within`, but total: at or past the end it returns `at`.
#[tactic(auto, using(crate::proofs::Framing::cut_past))]
pub fn frame_end(list: &[u8], at: usize) -> usize
    ensures { result ≡ at + frame_size (drop at list.now) }
{
    if at < list.len() {
        frame_end_within(list, at)
    } else {
        at
    }
}
