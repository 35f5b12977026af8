// The rack: types, and the constants of the record's layout. There is no code.
#![tactic(auto)]

// What an accepted step gives.
#[derive(Clone, Copy)]
pub enum Answer {
    Done,
    Word(u32),
    // Whom a deliver served: the target and the block of its message.
    Served { component: u8, block: u8 },
}

// The state letter of a board and a block.
#[derive(Clone, Copy)]
pub enum Letter {
    M,
    O,
    E,
    S,
    I,
}

// The owner token of a block, as a component or a message has it: there with its mark, or away. Dirty: on every record that an opening led to, the block
// was stored to since the owner was last at home. No byte depends on the order of the three.
#[derive(Clone, Copy)]
pub enum Owner {
    Clean,
    Dirty,
    Away,
}

// What stands in front of a message's words: its ends, its block, its tokens, and whether the words are data.
#[derive(Clone, Copy)]
pub struct MessageHeader {
    pub sender: u8,
    pub target: u8,
    pub block: u8,
    pub plain: u8,
    pub owner: Owner,
    pub data: bool,
}

#[derive(Clone, Copy)]
pub struct Message {
    pub header: MessageHeader,
    pub words: [u32; 8],
}

// The record's layout: specs/RecordLayout.antt has the same numbers under the same names, and the contracts tie the two.

// The header.
pub const BOARD_COUNT_OFFSET: usize = 0;

pub const BLOCK_COUNT_OFFSET: usize = 1;

pub const TOKEN_COUNT_OFFSET: usize = 2;

pub const MESSAGE_COUNT_OFFSET: usize = 3;

pub const FORMAT_OFFSET: usize = 28;

pub const HEADER_SIZE: usize = 32;

// The number of this layout. A landing that gives a byte of the record another meaning raises it by one.
pub const FORMAT_NUMBER: u32 = 1;

// The format as one number: "HYL" in ASCII, then the number of the layout.
pub const FORMAT_MAGIC: u32 = 0x48594C00 + FORMAT_NUMBER;

// A message.
pub const SENDER_OFFSET: usize = 0;

pub const TARGET_OFFSET: usize = 1;

pub const MESSAGE_BLOCK_OFFSET: usize = 2;

pub const MESSAGE_PLAIN_OFFSET: usize = 3;

pub const MESSAGE_OWNER_OFFSET: usize = 4;

pub const DATA_OFFSET: usize = 5;

pub const MESSAGE_DIRTY_OFFSET: usize = 6;

// A byte that is 0.
pub const MESSAGE_ZERO_OFFSET: usize = 7;

pub const MESSAGE_WORDS_OFFSET: usize = 8;

pub const MESSAGE_SIZE: usize = 40;

pub const MESH_ROOM: usize = 64;

// The most messages in flight: document 01 has one limit, which is not the room of the layout.
pub const MESH_LIMIT: u8 = 64;

// A block: four lanes, the claims, the words.
pub const LANE_SIZE: usize = 16;

pub const OWNER_OFFSET: usize = LANE_SIZE;

pub const VALID_OFFSET: usize = 2 * LANE_SIZE;

pub const DIRTY_OFFSET: usize = 3 * LANE_SIZE;

pub const LANES_SIZE: usize = 4 * LANE_SIZE;

pub const CLAIMS_OFFSET: usize = 80;

// In the claims.
pub const WAITING_OFFSET: usize = 32;

pub const CLAIMS_SIZE: usize = WAITING_OFFSET + 2;

pub const CLAIMS_ROOM: usize = 40;

pub const WORDS_OFFSET: usize = CLAIMS_OFFSET + CLAIMS_ROOM;

pub const WORDS_SIZE: usize = 32;

pub const BLOCK_SIZE: usize = WORDS_OFFSET + LANE_SIZE * WORDS_SIZE;

pub const BLOCKS_OFFSET: usize = HEADER_SIZE + MESH_ROOM * MESSAGE_SIZE;

// The longest record: 32 blocks are the most.
pub const LONGEST_RECORD: usize = BLOCKS_OFFSET + BLOCK_SIZE * 32;
