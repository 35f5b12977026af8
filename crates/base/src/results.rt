// The numbers of document 01's refusal table, and results of exported entries as one number.
ghost use Rattle.std.specs.Prelude.{◌≡◌};
ghost use Rattle.spec_wire.specs.Refusals.{number};
ghost use Rattle.spec_wire.specs.Results.{done, refused};

use spec_wire::Refusal;

// The refusal's number in the table. No `From`: its `impl` would have to stand beside the type, in spec_wire, which has no code.
pub fn number(refusal: Refusal) -> u64
    ensures { result ≡ number refusal }
{
    match refusal {
        Refusal::Torn => 1,
        Refusal::Unsound => 2,
        Refusal::OffRack => 3,
        Refusal::Home => 4,
        Refusal::NoToken => 5,
        Refusal::NoData => 6,
        Refusal::Short => 7,
        Refusal::SelfSend => 8,
        Refusal::Claimed => 9,
        Refusal::Empty => 10,
        Refusal::NotHeld => 11,
        Refusal::BareOwner => 12,
        Refusal::MeshFull => 13,
        Refusal::NoMessage => 14,
        Refusal::Waiting => 15,
        Refusal::Barred => 16,
        Refusal::NotWaiting => 17,
        Refusal::Unclaimed => 18,
        Refusal::Size => 19,
        Refusal::ShortBuffer => 20,
    }
}

// The result of an exported entry that refuses.
#[tactic(auto, using(spec_wire::proofs::RefusalTable::number_known))]
pub fn pack_refused(refusal: Refusal) -> u64
    ensures { result ≡ refused refusal }
{
    0x0100_0000_0000_0000 + number(refusal)
}

// The result of an exported entry that gives a number, or only "done" with the number 0.
pub fn pack_done(count: u32) -> u64
    ensures { result ≡ done count }
{
    u64::from(count)
}
