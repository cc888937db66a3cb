// The chip: the check of a geometry, the addresses that a geometry gives, and the functions that change the image: every store and every
// erase of the queue is made here, and paid for here.
#![tactic(auto)]

ghost use Rattle.std.specs.Prelude.{◌≡◌, [], ◌∷◌, ◌++◌, ◌+◌, ◌-◌, ◌≤◌, ◌<◌, length, drop, replicate};
ghost use Rattle.paper.specs.Chip.{Event, round_up, round_down, header_size, page_start, range_end, data_start, data_size, data_end, page_of, writes, erase_page};
ghost use Rattle.paper.specs.Refusals.{word_limit, allowed_word, rules, judge};
ghost use Rattle.chip.specs.Within.{Good, Within, Checks, RoundedUp};
ghost use Rattle.chip.specs.Run.{spend, paid, Did};

use paper::{Geometry, Refusal, Shape};

// An address and a page's number are types of their own, so that neither can be taken for the other.
#[derive(Clone, Copy, PartialEq, Eq, PartialOrd, Ord)]
pub struct Address(pub u32);

#[derive(Clone, Copy, PartialEq, Eq, PartialOrd, Ord)]
pub struct Page(pub u32);

// How many stores may still be made: so many, or any number.
#[derive(Clone, Copy, PartialEq, Eq)]
pub struct Budget(pub Option<usize>);

// Why a call or a step of one ends early. A store was wanted that the budget did not have:
#[derive(Clone, Copy, PartialEq, Eq)]
pub struct Cut;

// What a step fails with that met what should not be there: a page half erased, or no header where one should stand.
#[derive(Clone, Copy, PartialEq, Eq)]
pub struct Corrupted;

// A step that reads and stores ends early for either.
#[derive(Clone, Copy, PartialEq, Eq)]
pub enum Failure {
    Corrupted,
    Cut,
}

impl From<Corrupted> for Failure {
    ghost use Rattle.chip.specs.declared.Failure.TheVariants as failure;

    ghost from_gives = { λ _ e. e ≡ failure.Corrupted };

    fn from(_: Corrupted) -> Failure {
        Failure::Corrupted
    }
}

impl From<Cut> for Failure {
    ghost use Rattle.chip.specs.declared.Failure.TheVariants as failure;

    ghost from_gives = { λ _ e. e ≡ failure.Cut };

    fn from(_: Cut) -> Failure {
        Failure::Cut
    }
}

impl From<Cut> for Refusal {
    ghost use Rattle.paper.specs.declared.Refusal.TheVariants as refusal;

    ghost from_gives = { λ _ e. e ≡ refusal.Cut };

    fn from(_: Cut) -> Refusal {
        Refusal::Cut
    }
}

impl From<Failure> for Refusal {
    ghost use Rattle.chip.specs.Run.{refusal_of};

    ghost from_gives = { λ f e. e ≡ refusal_of f };

    fn from(f: Failure) -> Refusal {
        match f {
            Failure::Corrupted => Refusal::Corrupted,
            Failure::Cut => Refusal::Cut,
        }
    }
}

// The limits of this port: the longest word, in bytes, as in the Rust ..
pub const MAX_WORD_SIZE: usize = 32;
// .. the longest page, in bytes, and the most pages.
const MAX_PAGE_SIZE: u32 = 65536;

pub const MAX_PAGES: usize = 256;

// ---- the check

// The refusals come in the order of the table's rows, each test resting on those before it. The numbers are the caller's, so sums are
// taken in 64 bits, where they cannot wrap.
#[tactic(auto, using(std::proofs::lemmas::Bool::Decides::nat_tests), unfolding(paper::specs::Refusals::rules, paper::specs::Refusals::judge, paper::specs::Refusals::check))]
pub fn check_geometry(n: usize, s: Shape) -> Result<Geometry, Refusal>
    ensures { Checks n s result }
{
    if s.page == 0 || s.word == 0 || s.page % s.word != 0 {
        return Err(Refusal::BadGeometry);
    }
    if s.start % s.page != 0 {
        return Err(Refusal::StartRangeNotAtPageBoundary);
    }
    if s.end % s.page != 0 {
        return Err(Refusal::EndRangeNotAtPageBoundary);
    }
    if u64::from(s.end) < u64::from(s.start) + u64::from(s.page) {
        return Err(Refusal::RangeTooSmall);
    }
    check_sizes(n, s)
}

// The check from its fifth rule on.
#[tactic(auto, using(std::proofs::lemmas::Bool::Decides::nat_tests), unfolding(paper::specs::Refusals::rules, paper::specs::Refusals::judge))]
fn check_sizes(n: usize, s: Shape) -> Result<Geometry, Refusal>
    requires { (0 < s.page) × (0 < s.word) × (s.start ≤ s.end) }
    ensures { result ≡ judge s (drop 4 (rules n s)) }
{
    let w = s.word as usize;
    if (s.page as usize) < 3 * w + round_up(8, w) {
        return Err(Refusal::PagesTooSmall);
    }
    if MAX_WORD_SIZE < w {
        return Err(Refusal::WordSizeTooLarge);
    }
    if !is_allowed_word(s.word) {
        return Err(Refusal::BadWord);
    }
    check_limits(n, s)
}

#[tactic(auto, unfolding(paper::specs::Refusals::allowed_word))]
fn is_allowed_word(w: u32) -> bool
    ensures { result ≡ allowed_word w }
{
    matches!(w, 4 | 8 | 16 | 32)
}

// The check from its eighth rule on: these are the limits of this port, which the Rust has not.
#[tactic(auto, using(std::proofs::lemmas::Bool::Decides::nat_tests), unfolding(paper::specs::Refusals::rules, paper::specs::Refusals::judge, paper::specs::Refusals::page_count, paper::specs::Refusals::geometry_of))]
fn check_limits(n: usize, s: Shape) -> Result<Geometry, Refusal>
    requires { (0 < s.page) × (s.start ≤ s.end) }
    ensures { result ≡ judge s (drop 7 (rules n s)) }
{
    let pages = (s.end - s.start) / s.page;
    if MAX_PAGE_SIZE < s.page || MAX_PAGES < (pages as usize) {
        return Err(Refusal::TooLarge);
    }
    if n < (s.end as usize) {
        return Err(Refusal::OutsideImage);
    }
    Ok(Geometry {
        start: s.start,
        page: s.page,
        word: s.word,
        pages,
    })
}

// ---- numbers and addresses
//
// Most functions ask for a good geometry, and where an image is lent for one that lies in it, by a clause: the facts join the geometry with the
// image's length and with page numbers. A struct that holds the lent image, the budget and the geometry was tried (docs/DESIGN-PASS.md, 5):
// it saves that clause, and takes three others, for what a call leaves in it.
//
// A u32 becomes a usize by `as`, here and in the crates above: there is no `From` for that, as in Rust.

// round_up_to_alignment. The word may be any number but 0, since the check rounds before it has looked at the word.
pub fn round_up(n: usize, w: usize) -> usize
    requires { (0 < w) × (w < 4294967296) × (n < 4294967296) }
    ensures { RoundedUp w n result }
{
    (n + (w - 1)) / w * w
}

// round_down_to_alignment
#[tactic(auto, unfolding(paper::specs::Chip::round_down), using(laws::proofs::Rounding::round_down_le))]
pub fn round_down(n: usize, w: usize) -> usize
    requires { 0 < w }
    ensures { (result ≡ round_down w n) × (result ≤ n) }
{
    n / w * w
}

// What a header takes: its 8 bytes, rounded up to a word.
#[tactic(auto, unfolding(paper::specs::Chip::header_size))]
pub fn header_size(g: Geometry) -> usize
    requires { Good g }
    ensures { result ≡ header_size g }
{
    round_up(8, g.word as usize)
}

#[tactic(auto, unfolding(paper::specs::Chip::page_start), using(laws::proofs::Places::page_in))]
pub fn calculate_page_address(g: Geometry, p: Page) -> Address
    requires { Good g × (p.0 < g.pages) }
    ensures { result.0 ≡ page_start g p.0 }
{
    Address(g.start + p.0 * g.page)
}

// The end is exclusive: the next page's first address.
#[tactic(auto, using(laws::proofs::Places::page_in))]
pub fn calculate_page_end_address(g: Geometry, p: Page) -> Address
    requires { Good g × (p.0 < g.pages) }
    ensures { result.0 ≡ page_start g p.0 + g.page }
{
    let start = calculate_page_address(g, p);
    Address(start.0 + g.page)
}

// The page that an address of the range lies in.
#[tactic(auto, unfolding(paper::specs::Chip::page_of), using(laws::proofs::Standing::page_of_in))]
pub fn calculate_page_index(g: Geometry, address: Address) -> Page
    requires { Good g × (g.start ≤ address.0) × (address.0 < range_end g) }
    ensures { (result.0 ≡ page_of g address.0) × (result.0 < g.pages) }
{
    Page((address.0 - g.start) / g.page)
}

// A page without its two marks.
#[tactic(auto, unfolding(paper::specs::Chip::data_size))]
pub fn calculate_page_size(g: Geometry) -> usize
    requires { Good g }
    ensures { result ≡ data_size g }
{
    (g.page - 2 * g.word) as usize
}

// The data of a page begins behind its first mark ..
#[tactic(auto, unfolding(paper::specs::Chip::data_start), using(laws::proofs::Places::page_in))]
pub fn page_data_start_address(g: Geometry, p: Page) -> Address
    requires { Good g × (p.0 < g.pages) }
    ensures { result.0 ≡ data_start g p.0 }
{
    let start = calculate_page_address(g, p);
    Address(start.0 + g.word)
}

// .. and ends at its last.
#[tactic(auto, unfolding(paper::specs::Chip::data_end, paper::specs::Chip::data_start, paper::specs::Chip::data_size))]
pub fn page_data_end_address(g: Geometry, p: Page) -> Address
    requires { Good g × (p.0 < g.pages) }
    ensures { result.0 ≡ data_end g p.0 }
{
    let end = calculate_page_end_address(g, p);
    Address(end.0 - g.word)
}

// ---- stores

impl Budget {
    // A store is paid for before it is made: a call that is cut has made no more than its limit.
    #[tactic(auto, unfolding(crate::specs::Run::spend))]
    fn pay(&mut self) -> Result<(), Cut>
        ensures { paid result self.new ≡ spend self.old 1 }
    {
        match self.0 {
            None => Ok(()),
            Some(0) => Err(Cut),
            Some(left) => {
                self.0 = Some(left - 1);
                Ok(())
            }
        }
    }
}

// One word, whose bytes are ANDed to what stands there. The word is lent as a slice, so that one function serves every word size.
pub fn store_word(
    image: &mut [u8],
    budget: &mut Budget,
    g: Geometry,
    at: Address,
    word: &[u8],
) -> Result<(), Cut>
    requires { at.0 + length word.now ≤ length image.old }
    ensures { Did g budget.old (Event.store at.0 word.now ∷ []) image.old image.new (paid result budget.new) }
{
    budget.pay()?;
    let a = at.0 as usize;
    // the image by its index: its `iter_mut`, zipped with the word, was tried, and behind the loop nothing was known of the image
    for (i, byte) in word.iter().enumerate() {
        image[a + i] &= *byte;
    }
    Ok(())
}

// One page, set to FF: one store for the budget, however large the page is.
pub fn erase_page(image: &mut [u8], budget: &mut Budget, g: Geometry, p: Page) -> Result<(), Cut>
    requires { Within g (length image.old) × (p.0 < g.pages) }
    ensures { Did g budget.old (erase_page g p.0) image.old image.new (paid result budget.new) }
{
    budget.pay()?;
    let from = calculate_page_address(g, p).0 as usize;
    let to = from + g.page as usize;
    image[from..to].fill(0xff);
    Ok(())
}

// The last word of a write may be short: it is padded with zeros. There is no heap: the array holds a word of any
// size, and its first w bytes count.
fn padded_word(chunk: &[u8]) -> [u8; MAX_WORD_SIZE]
    requires { length chunk.now ≤ word_limit }
    ensures { result ≡ chunk.now ++ replicate (word_limit - length chunk.now) 0 }
{
    let mut word = [0u8; MAX_WORD_SIZE];
    word[..chunk.len()].copy_from_slice(chunk);
    word
}

// Bytes from an address on, a word at a time from the lowest up, so that a cut call leaves a front of them.
pub fn write(
    image: &mut [u8],
    budget: &mut Budget,
    g: Geometry,
    at: Address,
    bytes: &[u8],
) -> Result<(), Cut>
    requires { Good g × (at.0 + round_up g.word (length bytes.now) ≤ length image.old) × (at.0 + round_up g.word (length bytes.now) < 4294967296) }
    ensures { Did g budget.old (writes g at.0 bytes.now) image.old image.new (paid result budget.new) }
{
    let w = g.word as usize;
    // it moves along with the chunks: `(at.0..).step_by(w).zip(..)` would say the same less plainly
    let mut a = at.0;
    for chunk in bytes.chunks(w) {
        let word = padded_word(chunk);
        store_word(image, budget, g, Address(a), &word[..w])?;
        a += g.word;
    }
    Ok(())
}
