// The pages: their marks and states, the ring that they form, the searches over it, and what changes a page's state. The order is that of
// the Rust's src/lib.rs; the searches for the youngest and the oldest page, which src/queue/mod.rs has, stand at the end.
#![tactic(auto)]

ghost use Rattle.std.specs.Prelude.{◌≡◌, cond, [], ◌∷◌, ℕ, ◌+◌, ◌-◌, ◌≤◌, ◌<◌, length, replicate};
ghost use Rattle.std.specs.Int.Count.{ones};
ghost use Rattle.paper.specs.declared.PageState.TheVariants.{Open, PartialOpen, Closed};
ghost use Rattle.paper.specs.Chip.{part, Event, erase_page, gives};
ghost use Rattle.paper.specs.Pages.{is_set, state_by, state, set_start, set_end, rank, same, next, from, all_pages, found, first, open_from, youngest, oldest, repairs, repair};
ghost use Rattle.chip.specs.Within.{Good, Within};
ghost use Rattle.chip.specs.Run.{paid, Did};
ghost use Rattle.page.specs.Table.{Table, Covers, ReadFrom};
ghost use Rattle.page.specs.Searches.{sought_as, chosen_as, Sees};

use chip::{Address, Budget, Corrupted, Cut, MAX_PAGES, MAX_WORD_SIZE, Page};
use paper::{Geometry, PageState};

// What setting a mark stores in each byte.
const MARKER: u8 = 0;
// Half a byte of zeros will do, so that a flipped bit neither sets a mark nor undoes one.
const HALF_MARKER_BITS: u32 = 4;
// A byte that nothing was stored in: it has no zero bits to count.
const ERASED: u8 = 0xff;

// ---- repair

// A Corrupted page is likely half erased, so it is erased once more. Each state is read when its page's turn comes, as in the Rust: the
// erases before it have not changed it.
//
// A step that failed is run once more after it. The Rust has a macro for that; here spot_for, find_start, next and the counts have these
// lines each. A function that takes the step would be no plainer: a closure over the lent image, buffer and budget, and a contract over
// every plan.
pub fn try_general_repair(image: &mut [u8], budget: &mut Budget, g: Geometry) -> Result<(), Cut>
    requires { Within g (length image.old) }
    ensures { Did g budget.old (repair g image.old) image.old image.new (paid result budget.new) }
{
    for p in 0..g.pages {
        repair_page(image, budget, g, Page(p))?;
    }
    Ok(())
}

fn repair_page(image: &mut [u8], budget: &mut Budget, g: Geometry, p: Page) -> Result<(), Cut>
    requires { Within g (length image.old) × (p.0 < g.pages) }
    ensures { Did g budget.old (repairs g image.old (p.0 ∷ [])) image.old image.new (paid result budget.new) }
{
    let current = get_page_state(&image[..], g, p);
    if current == PageState::Corrupted {
        return open_page(image, budget, g, p);
    }
    Ok(())
}

// ---- the ring

// From `start` on, round to the page before it: None where no page is in the wanted state. A Corrupted page on the way ends the search.
#[tactic(auto, using(crate::proofs::Searching::first_none))]
pub fn find_first_page(
    table: [PageState; MAX_PAGES],
    g: Geometry,
    start: Page,
    want: PageState,
) -> Result<Option<Page>, Corrupted>
    requires { Good g × (start.0 < g.pages) }
    ensures { Sees g (λ im. Covers g im table want (from g start.0)) found (sought_as result) (λ im. first g im want (from g start.0)) }
{
    let mut p = start;
    for _ in 0..g.pages {
        let s = table[p.0 as usize];
        if s == PageState::Corrupted {
            return Err(Corrupted);
        }
        if s == want {
            return Ok(Some(p));
        }
        p = next_page(g, p);
    }
    Ok(None)
}

#[tactic(auto, using(laws::proofs::Ring::next_round, laws::proofs::Ring::next_on))]
pub fn next_page(g: Geometry, p: Page) -> Page
    requires { p.0 < g.pages }
    ensures { (result.0 ≡ next g p.0) × (result.0 < g.pages) }
{
    let n = p.0 + 1;
    if n == g.pages {
        return Page(0);
    }
    Page(n)
}

// ---- marks and states

// The states of one call, each read once and only as far as a search goes: the one for the youngest page ends at a PartialOpen page. They are
// an array by value, handed to the searches beside the geometry, as document 01 asks.
#[tactic(auto, using(crate::proofs::Rings::order_first))]
pub fn page_states(image: &[u8], g: Geometry) -> [PageState; MAX_PAGES]
    requires { Within g (length image.now) }
    ensures { Covers g image.now result PartialOpen (all_pages g) }
{
    let unread = [PageState::Open; MAX_PAGES];
    read_states(image, g, unread, 0, PageState::PartialOpen)
}

// The states behind the youngest page too, as far as the search for the oldest page goes: it ends at a Closed page. Where no page is
// PartialOpen, all were read.
fn states_behind(
    image: &[u8],
    g: Geometry,
    table: [PageState; MAX_PAGES],
    y: Page,
) -> [PageState; MAX_PAGES]
    requires { Within g (length image.now) × Covers g image.now table PartialOpen (all_pages g) × (youngest g image.now ≡ gives y.0) × (y.0 < g.pages) }
    ensures { Covers g image.now result Closed (from g y.0) }
{
    if table[y.0 as usize] == PageState::PartialOpen {
        return read_states(image, g, table, y.0 + 1, PageState::Closed);
    }
    table
}

// The table with the states of the pages from `start` on, up to the first where a search for `want` ends.
fn read_states(
    image: &[u8],
    g: Geometry,
    table: [PageState; MAX_PAGES],
    start: u32,
    want: PageState,
) -> [PageState; MAX_PAGES]
    requires { Within g (length image.now) × (start ≤ g.pages) }
    ensures { ReadFrom g image.now table start want result }
{
    let mut states = table;
    for p in start..g.pages {
        let s = get_page_state(image, g, Page(p));
        states[p as usize] = s;
        if s == PageState::Corrupted || s == want {
            break;
        }
    }
    states
}

#[tactic(auto, using(crate::proofs::Marks::state_is, crate::proofs::Marks::start_in, crate::proofs::Marks::end_in))]
pub fn get_page_state(image: &[u8], g: Geometry, p: Page) -> PageState
    requires { Within g (length image.now) × (p.0 < g.pages) }
    ensures { result ≡ state g image.now p.0 }
{
    let start = chip::calculate_page_address(g, p);
    let end = chip::page_data_end_address(g, p);
    let start_marked = is_marked(image, g, start);
    let end_marked = is_marked(image, g, end);
    discovered_state(start_marked, end_marked)
}

// Four zero bits decide, so a mark that was stored is known by its first byte. An erased one is FF to its end: FF is passed uncounted.
#[tactic(auto, unfolding(paper::specs::Pages::is_set), using(crate::proofs::Marks::zeros_next, crate::proofs::Marks::zeros_end))]
fn is_marked(image: &[u8], g: Geometry, at: Address) -> bool
    requires { Good g × (at.0 + g.word ≤ length image.now) }
    ensures { result ≡ is_set (part at.0 g.word image.now) }
{
    let a = at.0 as usize;
    let w = g.word as usize;
    let mut n = 0;
    for b in &image[a..a + w] {
        if *b != ERASED {
            n += zero_bits(*b);
            if HALF_MARKER_BITS <= n {
                return true;
            }
        }
    }
    false
}

fn zero_bits(byte: u8) -> u32
    ensures { (result ≡ 8 - ones byte) × (result ≤ 8) }
{
    8 - byte.count_ones()
}

fn discovered_state(start: bool, end: bool) -> PageState
    ensures { result ≡ state_by start end }
{
    match (start, end) {
        (false, false) => PageState::Open,
        (true, false) => PageState::PartialOpen,
        (true, true) => PageState::Closed,
        (false, true) => PageState::Corrupted,
    }
}

// The number by which C is told a state.
pub fn rank(s: PageState) -> u32
    ensures { result ≡ rank s }
{
    s as u32
}

// ---- stores

// An erased page is Open: the Rust's name for chip::erase_page.
pub fn open_page(image: &mut [u8], budget: &mut Budget, g: Geometry, p: Page) -> Result<(), Cut>
    requires { Within g (length image.old) × (p.0 < g.pages) }
    ensures { Did g budget.old (erase_page g p.0) image.old image.new (paid result budget.new) }
{
    chip::erase_page(image, budget, g, p)
}

// This and mark_start have the Rust's names, and differ in the mark that they hand to store_mark.
//
// The Rust first calls partial_close_page, and stores the end mark only if the page is PartialOpen then. Callers here have just made it so
// or seen it so: there is nothing to store before the end mark, and nothing to look at.
#[tactic(auto, unfolding(paper::specs::Pages::set_end), using(crate::proofs::Marks::end_in))]
pub fn close_page(image: &mut [u8], budget: &mut Budget, g: Geometry, p: Page) -> Result<(), Cut>
    requires { Within g (length image.old) × (p.0 < g.pages) }
    ensures { Did g budget.old (set_end g p.0 ∷ []) image.old image.new (paid result budget.new) }
{
    let end = chip::page_data_end_address(g, p);
    store_mark(image, budget, g, end)
}

// Only an Open page gets its start mark: a PartialOpen or Closed page has it, and a Corrupted one is left for the repair.
pub fn partial_close_page(
    image: &mut [u8],
    budget: &mut Budget,
    g: Geometry,
    p: Page,
) -> Result<(), Cut>
    requires { Within g (length image.old) × (p.0 < g.pages) }
    ensures { Did g budget.old (cond (same (state g image.old p.0) Open) (set_start g p.0 ∷ []) []) image.old image.new (paid result budget.new) }
{
    let current = get_page_state(&image[..], g, p);
    if current == PageState::Open {
        return mark_start(image, budget, g, p);
    }
    Ok(())
}

// partial_close_page where the page was just erased, or just seen to be Open, so that its state need not be read again.
#[tactic(auto, unfolding(paper::specs::Pages::set_start), using(crate::proofs::Marks::start_in))]
pub fn mark_start(image: &mut [u8], budget: &mut Budget, g: Geometry, p: Page) -> Result<(), Cut>
    requires { Within g (length image.old) × (p.0 < g.pages) }
    ensures { Did g budget.old (set_start g p.0 ∷ []) image.old image.new (paid result budget.new) }
{
    let start = chip::calculate_page_address(g, p);
    store_mark(image, budget, g, start)
}

// As many of the array's bytes count as a word has: there is no heap.
fn store_mark(image: &mut [u8], budget: &mut Budget, g: Geometry, at: Address) -> Result<(), Cut>
    requires { Good g × (at.0 + g.word ≤ length image.old) }
    ensures { Did g budget.old (Event.store at.0 (replicate g.word 0) ∷ []) image.old image.new (paid result budget.new) }
{
    let mark = [MARKER; MAX_WORD_SIZE];
    let w = g.word as usize;
    chip::store_word(image, budget, g, at, &mark[..w])
}

// ---- the two ends of the queue

#[tactic(auto, unfolding(paper::specs::Pages::youngest, paper::specs::Pages::all_pages), using(crate::proofs::Reading::all_read))]
pub fn find_youngest_page(table: [PageState; MAX_PAGES], g: Geometry) -> Result<Page, Corrupted>
    requires { Good g }
    ensures { Sees g (λ im. Covers g im table PartialOpen (all_pages g)) gives (chosen_as result) (youngest g) }
{
    if let Some(last_used) = find_first_page(table, g, Page(0), PageState::PartialOpen)? {
        return Ok(last_used);
    }
    find_open_page(table, g)
}

// No page is PartialOpen. A Closed page is the anchor, and the first Open page after it is the one to use. With no Closed page all are
// Open, and page 0 will do; with no Open page all are Closed, which is not correct.
fn find_open_page(table: [PageState; MAX_PAGES], g: Geometry) -> Result<Page, Corrupted>
    requires { Good g }
    ensures { Sees g (λ im. Table g im table) gives (chosen_as result) (λ im. open_from g im (first g im Closed (all_pages g))) }
{
    let Some(anchor) = find_first_page(table, g, Page(0), PageState::Closed)? else {
        return Ok(Page(0));
    };
    find_first_page(table, g, anchor, PageState::Open)?.ok_or(Corrupted)
}

// The table is that of the search for the youngest page, and is read further from there.
#[tactic(auto, unfolding(paper::specs::Pages::oldest))]
pub fn find_oldest_page(
    image: &[u8],
    table: [PageState; MAX_PAGES],
    g: Geometry,
) -> Result<Page, Corrupted>
    requires { Within g (length image.now) × Covers g image.now table PartialOpen (all_pages g) }
    ensures { (chosen_as result ≡ oldest g image.now) × ((p : ℕ) → chosen_as result ≡ gives p → p < g.pages) }
{
    let y = find_youngest_page(table, g)?;
    let further = states_behind(image, g, table, y);
    let closed = find_first_page(further, g, y, PageState::Closed)?;
    Ok(closed.unwrap_or(y))
}
