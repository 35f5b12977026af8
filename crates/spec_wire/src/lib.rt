// Step records and the refusal table: types, kind bytes and tags. There is no code.
#![tactic(auto)]

// A line of the table for each number, in the order of the numbers.
#[derive(Clone, Copy)]
pub enum Refusal {
    Torn,
    Unsound,
    OffRack,
    Home,
    NoToken,
    NoData,
    Short,
    SelfSend,
    Claimed,
    Empty,
    NotHeld,
    BareOwner,
    MeshFull,
    NoMessage,
    Waiting,
    Barred,
    NotWaiting,
    Unclaimed,
    Size,
    ShortBuffer,
}

// A step of the hub card.
#[derive(Clone, Copy)]
pub enum Step {
    Load {
        component: u8,
        block: u8,
        word: u8,
    },
    Store {
        component: u8,
        block: u8,
        word: u8,
        value: u32,
    },
    Send {
        component: u8,
        block: u8,
        target: u8,
        plain: u8,
        owner: bool,
        data: bool,
    },
    Deliver {
        position: u8,
    },
    Raise {
        component: u8,
        block: u8,
    },
    Lower {
        component: u8,
        block: u8,
    },
    Forward {
        component: u8,
        block: u8,
    },
}

// A field of a record: its tag, the width of its value in bytes, and the number that its value stays below.
#[derive(Clone, Copy)]
pub struct Field {
    pub tag: u8,
    pub width: usize,
    pub limit: u64,
}

// Kind bytes and tags of step records: specs/Kinds.antt has the same numbers, and the contracts tie the two.
pub const KIND_LOAD: u8 = 0x10;

pub const KIND_STORE: u8 = 0x11;

pub const KIND_SEND: u8 = 0x12;

pub const KIND_DELIVER: u8 = 0x13;

pub const KIND_RAISE: u8 = 0x14;

pub const KIND_LOWER: u8 = 0x15;

pub const KIND_FORWARD: u8 = 0x16;

pub const TAG_COMPONENT: u8 = 0x01;

pub const TAG_BLOCK: u8 = 0x02;

pub const TAG_WORD: u8 = 0x03;

pub const TAG_VALUE: u8 = 0x04;

pub const TAG_TARGET: u8 = 0x05;

pub const TAG_PLAIN: u8 = 0x06;

pub const TAG_OWNER: u8 = 0x07;

pub const TAG_DATA: u8 = 0x08;

pub const TAG_POSITION: u8 = 0x09;
