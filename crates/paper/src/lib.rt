// The plain data that the definitions of specs/ and the code share. There is no function here.
#![tactic(auto)]

// What a caller gives, not checked yet: a range of addresses, a page size and a word size.
#[derive(Clone, Copy)]
pub struct Shape {
    pub start: u32,
    pub end: u32,
    pub page: u32,
    pub word: u32,
}

// A shape that passed the check: `pages` pages of `page` bytes each from the address `start` on, written by words of `word` bytes.
#[derive(Clone, Copy)]
pub struct Geometry {
    pub start: u32,
    pub page: u32,
    pub word: u32,
    pub pages: u32,
}

#[derive(Clone, Copy, PartialEq, Eq)]
pub enum PageState {
    Open,
    PartialOpen,
    Closed,
    Corrupted,
}

// The refusals of document 01, in the order of its rows.
#[derive(Clone, Copy, PartialEq, Eq)]
pub enum Refusal {
    ItemTooBig,
    FullStorage,
    BufferTooSmall(usize),
    Corrupted,
    Cut,
    BadGeometry,
    StartRangeNotAtPageBoundary,
    EndRangeNotAtPageBoundary,
    RangeTooSmall,
    PagesTooSmall,
    WordSizeTooLarge,
    BadWord,
    TooLarge,
    OutsideImage,
}
