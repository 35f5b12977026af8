// The owner token's two flags: whether it is there, and whether its mark is dirty.
ghost use Rattle.std.specs.Prelude.{◌≡◌};
ghost use Rattle.spec_rack.specs.Rack.{present, clean};
ghost use Rattle.spec_rack.specs.RecordLayout.{owner_of, dirty};

use spec_rack::Owner;

// The owner that two flags tell; where it is away, the second tells nothing.
pub fn owner_of(here: bool, dirty: bool) -> Owner
    ensures { result ≡ owner_of here dirty }
{
    match (here, dirty) {
        (true, true) => Owner::Dirty,
        (true, false) => Owner::Clean,
        (false, _) => Owner::Away,
    }
}

pub fn is_present(owner: Owner) -> bool
    ensures { result ≡ present owner }
{
    matches!(owner, Owner::Clean | Owner::Dirty)
}

pub fn is_dirty(owner: Owner) -> bool
    ensures { result ≡ dirty owner }
{
    matches!(owner, Owner::Dirty)
}

pub fn is_clean(owner: Owner) -> bool
    ensures { result ≡ clean owner }
{
    matches!(owner, Owner::Clean)
}
