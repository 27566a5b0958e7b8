// The words of a table and its bounds: document 01, 'The table'.
use crate::KIND_UNIT;

// The kinds of a table's words: word 0, a rights word, and an endpoint's name, info, waiting count, lost count and slots.
pub const KIND_HEADER: u32 = 1;

pub const KIND_RIGHTS: u32 = 2;

pub const KIND_NAME: u32 = 3;

pub const KIND_INFO: u32 = 4;

pub const KIND_WAITING: u32 = 5;

pub const KIND_LOST: u32 = 6;

pub const KIND_SLOT: u32 = 15;

// A rights word with no right, and the words of an empty queue: nothing waits, nothing was lost, a slot has no message. What
// such a word holds otherwise is added to it.
pub const NO_RIGHT: u32 = KIND_RIGHTS * KIND_UNIT;

pub const NONE_WAITING: u32 = KIND_WAITING * KIND_UNIT;

pub const NONE_LOST: u32 = KIND_LOST * KIND_UNIT;

pub const EMPTY_SLOT: u32 = KIND_SLOT * KIND_UNIT;

// The largest lost count, and the largest message: 28 bits.
pub const MOST_LOST: u32 = 268435455;

// The most domains and endpoints, and an endpoint's slots, which are also the largest capacity.
pub const MOST_DOMAINS: u32 = 16;

pub const MOST_ENDPOINTS: u32 = 32;

pub const SLOTS: u32 = 8;

// The same three bounds as lengths.
pub const DOMAIN_PLACES: usize = MOST_DOMAINS as usize;

pub const ENDPOINT_PLACES: usize = MOST_ENDPOINTS as usize;

pub const SLOT_PLACES: usize = SLOTS as usize;

// An endpoint's words: name, info, waiting, lost and the slots.
pub const ENDPOINT_WORDS: usize = 4 + SLOT_PLACES;

// The most words of a table, 641: word 0, the rights words and the endpoints'.
pub const LONGEST_TABLE: usize = 1
    + DOMAIN_PLACES * DOMAIN_PLACES
    + ENDPOINT_WORDS * ENDPOINT_PLACES;
