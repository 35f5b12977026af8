// The mesh in the record: the messages in flight, oldest first. A message is named by its position, and not by a view of it: to copy its words or to
// remove it writes the record, which ends a view.
#![tactic(auto)]

ghost use Rattle.std.specs.Prelude.{◌≡◌, [], ◌∷◌, ◌++◌, ◌+◌, ◌*◌, ◌≤◌, ◌<◌, length};
ghost use Rattle.spec_base.specs.Folds.{remove_at};
ghost use Rattle.spec_base.specs.Layout.{slice, modify_at};
ghost use Rattle.spec_rack.specs.Rack.{cell_at, message_at};
ghost use Rattle.spec_rack.specs.RecordLayout.{message_offset, message_size, message_words_offset, cell_words_offset, words_size, message, get, put, messages_in};
ghost use Rattle.spec_rack.specs.WordCopy.{WordsCopied};
ghost use Rattle.record.specs.Needs.{InLayout, CellInRecord};
ghost use Rattle.record.specs.Changes.{with_words, replace_cell, with_mesh};

use record::{TokenState, cells, owner, tokens, words};
use spec_rack::{
    DATA_OFFSET, HEADER_SIZE, MESSAGE_BLOCK_OFFSET, MESSAGE_COUNT_OFFSET, MESSAGE_DIRTY_OFFSET,
    MESSAGE_OWNER_OFFSET, MESSAGE_PLAIN_OFFSET, MESSAGE_SIZE, MESSAGE_WORDS_OFFSET,
    MESSAGE_ZERO_OFFSET, Message, MessageHeader, SENDER_OFFSET, TARGET_OFFSET, WORDS_SIZE,
};

// The offset of the message at a position.
pub fn message_offset(position: u8) -> usize
    ensures { result ≡ message_offset position }
{
    HEADER_SIZE + MESSAGE_SIZE * usize::from(position)
}

// The header of the message at a position.
pub fn header_at(rec: &[u8], position: u8) -> MessageHeader
    requires { InLayout rec.now × (position < messages_in rec.now) }
    ensures { result ≡ (message_at (get rec.now) position).header }
{
    let at = message_offset(position);
    MessageHeader {
        sender: rec[at + SENDER_OFFSET],
        target: rec[at + TARGET_OFFSET],
        block: rec[at + MESSAGE_BLOCK_OFFSET],
        plain: rec[at + MESSAGE_PLAIN_OFFSET],
        owner: owner::owner_of(
            rec[at + MESSAGE_OWNER_OFFSET] == 1,
            rec[at + MESSAGE_DIRTY_OFFSET] == 1,
        ),
        data: rec[at + DATA_OFFSET] == 1,
    }
}

// Copies the words of the message at a position to a component's words, which stand behind the mesh: each byte is read once and written once.
// `copy_within` does the same byte by byte, since it begins with the last.
pub fn copy_words(rec: &mut [u8], position: u8, block: u8, component: u8)
    requires { CellInRecord rec.old block component × (position < messages_in rec.old) }
    ensures bytes { rec.new ≡ modify_at (cell_words_offset block component) words_size (λ t. slice (message_offset position + message_words_offset) words_size rec.old) rec.old }
    ensures words { WordsCopied rec.old position block component rec.new }
    ensures rack { rec.new ≡ put (replace_cell (get rec.old) block component (with_words (cell_at (get rec.old) block component) (message_at (get rec.old) position).words)) rec.old }
{
    let from = message_offset(position) + MESSAGE_WORDS_OFFSET;
    let to = cells::words_offset(block, component);
    let (mesh, cells) = rec.split_at_mut(to);
    cells[..WORDS_SIZE].copy_from_slice(&mesh[from..from + WORDS_SIZE]);
}

// Writes a message at `at`.
fn put_message(s: &mut [u8], at: usize, m: Message)
    requires { at + message_size ≤ length s.old }
    ensures { s.new ≡ modify_at at message_size (message.write m) s.old }
{
    let header = m.header;
    s[at] = header.sender;
    s[at + TARGET_OFFSET] = header.target;
    s[at + MESSAGE_BLOCK_OFFSET] = header.block;
    let state = TokenState {
        plain: header.plain,
        owner: header.owner,
        valid: header.data,
    };
    tokens::put_tokens::<1>(s, at + MESSAGE_PLAIN_OFFSET, state);
    s[at + MESSAGE_ZERO_OFFSET] = 0;
    words::put_words(s, at + MESSAGE_WORDS_OFFSET, m.words);
}

// One message more, as the newest.
pub fn append(rec: &mut [u8], m: Message)
    requires { InLayout rec.old × (messages_in rec.old < 64) }
    ensures { rec.new ≡ put (with_mesh (get rec.old) ((get rec.old).mesh ++ m ∷ [])) rec.old }
{
    let count = rec[MESSAGE_COUNT_OFFSET];
    let at = message_offset(count);
    put_message(rec, at, m);
    rec[MESSAGE_COUNT_OFFSET] = count + 1;
}

// The mesh without the message at a position; the rest keep their order.
pub fn remove(rec: &mut [u8], position: u8)
    requires { InLayout rec.old × (position < messages_in rec.old) }
    ensures { rec.new ≡ put (with_mesh (get rec.old) (remove_at (get rec.old).mesh position)) rec.old }
{
    let count = rec[MESSAGE_COUNT_OFFSET];
    let left = count - 1;
    let behind = left - position;
    let at = message_offset(position);
    let from = at + MESSAGE_SIZE;
    let size = MESSAGE_SIZE * usize::from(behind);
    // From a length the compiler makes one memmove, and from the end of the last message a loop.
    rec.copy_within(from..from + size, at);
    rec[MESSAGE_COUNT_OFFSET] = left;
}
