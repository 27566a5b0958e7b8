// The words of a call: document 01, 'The calls', with the kind that document 02 adds.
use crate::KIND_UNIT;

// The most words of a list.
pub const LONGEST_LIST: usize = 4096;

// The lowest bit of each field of a call's first word: the caller is bits 27–22, A bits 21–16, B bits 15–8. C is bits 7–0.
pub const CALLER_UNIT: u32 = 0x40_0000;

pub const A_UNIT: u32 = 0x1_0000;

pub const B_UNIT: u32 = 0x100;

// The kinds of call.
pub const KIND_LOOK_UP: u32 = 1;

pub const KIND_SEND: u32 = 2;

pub const KIND_RECEIVE: u32 = 3;

pub const KIND_MY_ENDPOINTS: u32 = 4;

pub const KIND_MY_RIGHTS: u32 = 5;

pub const KIND_GRANT: u32 = 6;

pub const KIND_REMOVE: u32 = 7;

pub const KIND_REVOKE: u32 = 8;

// The kind of a call's second word.
pub const KIND_SECOND: u32 = 15;

// A second word that holds nothing. The name or the message is added to it.
pub const SECOND_WORD: u32 = KIND_SECOND * KIND_UNIT;
