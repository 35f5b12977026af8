// The parser of step records. spec_wire's Reader specifies the result for every input.
// order: body, message_body, lib
#![tactic(auto)]

pub mod body;
pub mod message_body;

ghost use Rattle.std.specs.Prelude.{◌≡◌};
ghost use Rattle.spec_wire.specs.Reader.{read_body, read_record};
ghost use Rattle.wire_reader.specs.Parsing.{reading_of};

use base::numbers::BigEndian;
use spec_wire::{
    KIND_DELIVER, KIND_FORWARD, KIND_LOAD, KIND_RAISE, KIND_SEND, KIND_STORE, Refusal, Step,
};

// The step of the kind with this kind byte, from its body.
#[tactic(auto, using(crate::proofs::BodyParsing::no_kinds))]
fn read_body(kind: u8, body: &[u8]) -> Option<Step>
    ensures { reading_of result ≡ read_body kind body.now }
{
    match kind {
        KIND_LOAD => body::read_load(body),
        KIND_STORE => body::read_store(body),
        KIND_SEND => message_body::read_send(body),
        KIND_DELIVER => message_body::read_deliver(body),
        KIND_RAISE..=KIND_FORWARD => body::read_claim(kind, body),
        _ => None,
    }
}

// The step that the bytes are the step record of.
#[tactic(auto, using(crate::proofs::RecordParsing::frames))]
pub fn read(bytes: &[u8]) -> Result<Step, Refusal>
    ensures { result ≡ read_record bytes.now }
{
    if bytes.len() < 3 || usize::from(u16::read_at(bytes, 1)) != bytes.len() - 3 {
        return Err(Refusal::Torn);
    }
    read_body(bytes[0], &bytes[3..]).ok_or(Refusal::Torn)
}
