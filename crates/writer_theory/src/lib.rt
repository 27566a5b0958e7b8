// The words that calls are written in (document 02, (c)), as definitions and theorems about the calls that crate calls decodes:
// calls that can be written are read back, and words that are read as calls past 10, 11, 13 and 14 are written as they came. It
// has no function: its code is one type. What a reader must believe is in specs/, what is proved of it in proofs/.
#![tactic(auto)]

// A call's fields by their places in its words: bits 31–28, 27–22, 21–16, 15–8 and 7–0 of the first word, and bits 27–0 of the
// second. Kind 0, which begins no call, represents a refused one.
#[derive(Clone, Copy, Debug, Default, PartialEq, Eq)]
pub struct Fields {
    pub kind: u32,
    pub caller: u32,
    pub a: u32,
    pub b: u32,
    pub c: u32,
    pub second: u32,
}
