// A token state as bytes: four side by side in a message, one in each lane of a block.
ghost use Rattle.std.specs.Prelude.{◌≡◌, ◌+◌, ◌*◌, ◌<◌, length};
ghost use Rattle.record.specs.Changes.{set_tokens};

use super::{TokenState, owner};

// Writes a token state's four bytes, the first at `at` and each `APART` behind the one before: 1 in a message, LANE_SIZE in a block.
pub fn put_tokens<const APART: usize>(s: &mut [u8], at: usize, state: TokenState)
    requires { at + 3 * APART < length s.old }
    ensures { s.new ≡ set_tokens APART at (state.plain, (state.owner, state.valid)) s.old }
{
    s[at] = state.plain;
    s[at + APART] = u8::from(owner::is_present(state.owner));
    s[at + 2 * APART] = u8::from(state.valid);
    s[at + 3 * APART] = u8::from(owner::is_dirty(state.owner));
}
