// The lines that a program writes of replies.
ghost use Rattle.std.specs.Prelude.{◌≡◌, ◌+◌, ◌^◌, ◌≤◌, ◌<◌, ◌++◌, length};
ghost use Rattle.spec_base.specs.Placing.{place};
ghost use Rattle.spec_rackrun.specs.Rackrun.{digit, digits, decimal, reply_text, line};

use arrayvec::ArrayVec;
use spec_rack::Answer;
use spec_wire::Refusal;

// The longest line.
pub const LINE_SIZE: usize = 16;

// The bytes of a line so far. They are pushed, not written by `write!`: its contract speaks of `Ok` alone, and a line is promised for every reply.
type Line = ArrayVec<u8, LINE_SIZE>;

// A digit in ASCII.
fn digit(n: u64) -> u8
    requires { n < 16 }
    ensures { result ≡ digit n }
{
    if n < 10 {
        b'0' + n as u8
    } else {
        b'a' - 10 + n as u8
    }
}

// A power of ten of which a number in a line may have a digit.
fn power_of_ten(k: usize) -> u64
    requires { k ≤ 4 }
    ensures power { result ≡ 10 ^ k }
    ensures some { 0 < result }
{
    match k {
        0 => 1,
        1 => 10,
        2 => 100,
        3 => 1_000,
        _ => 10_000,
    }
}

// Adds a number in decimal, of at most one digit and `MORE` more. The powers are constants once the loop is unrolled, so that no division is left.
fn push_decimal<const MORE: usize>(text: &mut Line, n: u64)
    requires { (length text.old.items + MORE < 16) × (MORE ≤ 4) }
    ensures text { text.new.items ≡ text.old.items ++ decimal MORE n }
    ensures length { length text.new.items ≤ length text.old.items + MORE + 1 }
{
    for k in (1..MORE + 1).rev() {
        let front = n / power_of_ten(k);
        if front > 0 {
            text.push(digit(front % 10));
        }
    }
    text.push(digit(n % 10));
}

// Adds the lowest hexadecimal digits of a number.
fn push_hexadecimal<const COUNT: usize>(text: &mut Line, n: u64)
    requires { (length text.old.items + COUNT ≤ 16) × (COUNT ≤ 8) }
    ensures text { text.new.items ≡ text.old.items ++ digits 16 COUNT n }
    ensures length { length text.new.items ≡ length text.old.items + COUNT }
{
    for k in (0..COUNT).rev() {
        text.push(digit((n >> (4 * k)) % 16));
    }
}

// Adds the text of a reply.
#[tactic(auto, unfolding(spec_rackrun::specs::Rackrun::reply_text))]
fn push_reply(text: &mut Line, reply: Result<Answer, Refusal>)
    requires { length text.old.items + 9 ≤ 16 }
    ensures text { text.new.items ≡ text.old.items ++ reply_text reply }
    ensures length { length text.new.items ≤ length text.old.items + 9 }
{
    match reply {
        Ok(Answer::Done) => {
            text.push(b'o');
            text.push(b'k');
        }
        Ok(Answer::Word(word)) => {
            text.push(b'v');
            push_hexadecimal::<8>(text, u64::from(word));
        }
        Ok(Answer::Served { component, block }) => {
            text.push(b'd');
            push_decimal::<2>(text, u64::from(component));
            text.push(b'.');
            push_decimal::<2>(text, u64::from(block));
        }
        Err(refusal) => {
            text.push(b'r');
            push_decimal::<1>(text, base::results::number(refusal));
        }
    }
}

// The bytes of a line.
#[tactic(auto, unfolding(spec_rackrun::specs::Rackrun::line))]
fn line(index: u64, reply: Result<Answer, Refusal>) -> Line
    ensures { result.items ≡ line index reply }
{
    let mut text = Line::new();
    push_decimal::<4>(&mut text, index);
    text.push(b' ');
    push_reply(&mut text, reply);
    text.push(b'\n');
    text
}

// Places a line at the front of a buffer, and gives its length.
#[tactic(auto, unfolding(spec_base::specs::Placing::place))]
pub fn put_line(out: &mut [u8], index: u64, reply: Result<Answer, Refusal>) -> usize
    requires { 16 ≤ length out.old }
    ensures text { out.new ≡ place 0 (line index reply) out.old }
    ensures length { result ≡ length (line index reply) }
    ensures short { result ≤ 16 }
{
    let line = line(index, reply);
    out[..line.len()].copy_from_slice(line.as_slice());
    line.len()
}
