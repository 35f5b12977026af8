// A set of blocks as bits of a u32: block b is in it where bit b is 1.
ghost use Rattle.std.specs.Prelude.{◌≡◌, true, cond, ◌<◌};
ghost use Rattle.spec_arbiter.specs.Boards.{member, insert, remove};

// The set with the block where a test holds, and as it is where it does not.
pub fn insert_if(blocks: u32, b: usize, test: bool) -> u32
    requires { b < 32 }
    ensures { result ≡ cond test (insert blocks b) blocks }
{
    blocks | (test as u32) << (b as u32)
}

// A block of a set that is not empty.
pub fn choose(blocks: u32) -> usize
    requires { 0 < blocks }
    ensures { (result < 32) × (member blocks result ≡ true) }
{
    u32::trailing_zeros(blocks) as usize
}

// The set without the block.
pub fn remove(blocks: u32, b: usize) -> u32
    requires { b < 32 }
    ensures { result ≡ remove blocks b }
{
    let bit = 1u32 << (b as u32);
    (blocks | bit) - bit
}
