// The sizes of a rack, as an opening is given them and as a record has them: three numbers, which only an opening passes on as one value
// (`record_open::Sizes`, where they are in range).
ghost use Rattle.std.specs.Prelude.{◌≡◌};
ghost use Rattle.spec_rack.specs.Soundness.{sizes};

// Whether the sizes are in range.
pub fn in_range(boards: u32, blocks: u32, tokens: u32) -> bool
    ensures { result ≡ sizes boards blocks tokens }
{
    (1..=15).contains(&boards) & (1..=32).contains(&blocks) & (boards..=64).contains(&tokens)
}
