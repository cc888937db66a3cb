// The search for the first present item, which peek and pop share. Names and order are those of the Rust's src/queue/mod.rs, where it is the
// first step of an iterator.
#![tactic(auto)]

ghost use Rattle.std.specs.Prelude.{◌≡◌, ℕ, ◌≤◌, ◌<◌, length};
ghost use Rattle.paper.specs.Chip.{page_start, data_end, gives};
ghost use Rattle.paper.specs.Pages.{oldest};
ghost use Rattle.paper.specs.Steps.{with_repair};
ghost use Rattle.paper.specs.Search.{read_heads, stand_at, next_step, start_step};
ghost use Rattle.paper.specs.Search as plans;
ghost use Rattle.laws.specs.Readable.{ReadableFrom};
ghost use Rattle.chip.specs.Within.{Good, Within};
ghost use Rattle.chip.specs.Run.{spent};
ghost use Rattle.item.specs.Places.{Inside};
ghost use Rattle.item.specs.Scanning.{walk_from};
ghost use Rattle.page.specs.Searches.{chosen_as};
ghost use Rattle.search.specs.Turns.{read_turn, leave_turn, turn_from};
ghost use Rattle.search.specs.Meanings.{stand_as, met_as, started_as, ended_as, found_as, turn_as, StandIn, ChosenIn, MetIn, EndedIn, FoundIn, TurnIn};
ghost use Rattle.search.specs.Searching.{searched, Copies, Stores, ComesTo};

use chip::{Address, Budget, Corrupted, Cut, Failure, Page};
use item::{Item, MaybeItem, TooSmall};
use paper::{Geometry, PageState, Refusal};
use std::ops::ControlFlow;

// Where a search stands: at an address, from which it reads on in that address's page, or behind a page, which it leaves.
#[derive(Clone, Copy, PartialEq, Eq)]
pub enum NextAddress {
    Address(Address),
    PageAfter(Page),
}

// Why a search ends early: an item is too long for the buffer, which should have this size; a page is Corrupted; or the budget is used up.
#[derive(Clone, Copy, PartialEq, Eq)]
pub enum Ended {
    TooSmall(usize),
    Corrupted,
    Cut,
}

impl From<Cut> for Ended {
    ghost use Rattle.search.specs.declared.Ended.TheVariants as ended;

    ghost from_gives = { λ _ e. e ≡ ended.Cut };

    fn from(_: Cut) -> Ended {
        Ended::Cut
    }
}

impl From<Failure> for Ended {
    ghost use Rattle.search.specs.Meanings.{ended_of};

    ghost from_gives = { λ f e. e ≡ ended_of f };

    fn from(f: Failure) -> Ended {
        match f {
            Failure::Corrupted => Ended::Corrupted,
            Failure::Cut => Ended::Cut,
        }
    }
}

impl From<Ended> for Refusal {
    ghost use Rattle.search.specs.Meanings.{refusal_by};

    ghost from_gives = { λ e r. r ≡ refusal_by e };

    fn from(e: Ended) -> Refusal {
        match e {
            Ended::TooSmall(size) => Refusal::BufferTooSmall(size),
            Ended::Corrupted => Refusal::Corrupted,
            Ended::Cut => Refusal::Cut,
        }
    }
}

// What reading the items of a page fails with: one is of this size, too long for the buffer, and was looked for from this address.
#[derive(Clone, Copy, PartialEq, Eq)]
struct Long {
    from: Address,
    size: usize,
}

// ---- the search, which has two steps, each with its repair

// It begins with the oldest page's first item and ends at a present one: the pages that it leaves have none, so it clears them. Peek and pop
// go no further, so where the search then stands is left aside.
pub fn search(
    image: &mut [u8],
    buffer: &mut [u8],
    budget: &mut Budget,
    g: Geometry,
) -> Result<Option<Item>, Ended>
    requires { Within g (length image.old) }
    ensures { ComesTo (found_as g) (FoundIn g) g budget.old (plans.search g image.old (length buffer.old)) image.old image.new buffer.old buffer.new (searched result budget.new) result }
{
    let oldest = find_start(image, budget, g)?;
    let address = chip::page_data_start_address(g, oldest);
    let mut stand = NextAddress::Address(address);
    next(image, buffer, budget, g, oldest, true, &mut stand)
}

// ---- finding the start

// The Rust answers the address where the page's data begins, and its caller takes the page from that again: here it is the page.
fn find_start_address(image: &[u8], g: Geometry) -> Result<Page, Corrupted>
    requires { Within g (length image.now) }
    ensures { (chosen_as result ≡ oldest g image.now) × ((p : ℕ) → chosen_as result ≡ gives p → p < g.pages) }
{
    let table = page::page_states(image, g);
    page::find_oldest_page(image, table, g)
}

// QueueIterator::new: the states are read anew after a repair. These lines are its own (page::try_general_repair says why).
pub fn find_start(image: &mut [u8], budget: &mut Budget, g: Geometry) -> Result<Page, Failure>
    requires { Within g (length image.old) }
    ensures { Stores (λ im. started_as) (λ n. ChosenIn g) g budget.old (with_repair g (start_step g) tt image.old) image.old image.new (spent result budget.new) result }
{
    if let Ok(start) = find_start_address(&image[..], g) {
        return Ok(start);
    }
    page::try_general_repair(image, budget, g)?;
    Ok(find_start_address(&image[..], g)?)
}

// ---- finding the next item
//
// The oldest page, `clears` and where the search stands go through four functions, and are one struct in the Rust. Lent as one, its steps
// would have to promise that two of them stay, and its fact (`StandIn`) is about the geometry too: request 1/14 has it by value, as document 01
// asks.

// QueueIterator::next: what failed is run once more from where it stood, on a repaired image. `clears` says whether the pages that it leaves
// are erased: in the Rust, whether its previous_item_states are AllPopped. Where the search stands is lent: it moves on with each turn, and
// stays where a turn meets a Corrupted page. The lines on the repair are its own (page::try_general_repair says why).
pub fn next(
    image: &mut [u8],
    buffer: &mut [u8],
    budget: &mut Budget,
    g: Geometry,
    oldest: Page,
    clears: bool,
    stand: &mut NextAddress,
) -> Result<Option<Item>, Ended>
    requires { Within g (length image.old) × StandIn g stand.old }
    ensures { ComesTo (ended_as g stand.new) (EndedIn g stand.new) g budget.old (with_repair g (next_step g (length buffer.old) oldest.0 clears) (stand_as stand.old) image.old) image.old image.new buffer.old buffer.new (searched result budget.new) result }
{
    let found = next_inner(image, buffer, budget, g, oldest, clears, stand);
    if found == Err(Ended::Corrupted) {
        page::try_general_repair(image, budget, g)?;
        return next_inner(image, buffer, budget, g, oldest, clears, stand);
    }
    found
}

// The Rust's loop has no bound. Two turns for each page are enough, since the search ends before it is back at the oldest page.
fn next_inner(
    image: &mut [u8],
    buffer: &mut [u8],
    budget: &mut Budget,
    g: Geometry,
    oldest: Page,
    clears: bool,
    stand: &mut NextAddress,
) -> Result<Option<Item>, Ended>
    requires { Within g (length image.old) × StandIn g stand.old }
    ensures { ComesTo (ended_as g stand.new) (EndedIn g stand.new) g budget.old (next_step g (length buffer.old) oldest.0 clears (stand_as stand.old) image.old) image.old image.new buffer.old buffer.new (searched result budget.new) result }
{
    for _ in 0..2 * g.pages {
        let turn = take_turn(image, buffer, budget, g, oldest, clears, stand)?;
        if let ControlFlow::Break(found) = turn {
            return Ok(found);
        }
    }
    Ok(None)
}

// One turn: the search goes on from another stand, or ends with what it found.
fn take_turn(
    image: &mut [u8],
    buffer: &mut [u8],
    budget: &mut Budget,
    g: Geometry,
    oldest: Page,
    clears: bool,
    stand: &mut NextAddress,
) -> Result<ControlFlow<Option<Item>>, Ended>
    requires { Within g (length image.old) × StandIn g stand.old }
    ensures { ComesTo (turn_as g stand.new) (TurnIn g stand.new) g budget.old (turn_from g (length buffer.old) oldest.0 clears (stand_as stand.old) image.old) image.old image.new buffer.old buffer.new (searched result budget.new) result }
{
    match *stand {
        NextAddress::Address(address) => read_page(&image[..], buffer, g, address, stand),
        NextAddress::PageAfter(p) => leave_page(image, budget, g, oldest, clears, p, stand),
    }
}

// ---- on a page

// The items from the address on: they end with the data of its page.
fn read_page(
    image: &[u8],
    buffer: &mut [u8],
    g: Geometry,
    address: Address,
    stand: &mut NextAddress,
) -> Result<ControlFlow<Option<Item>>, Ended>
    requires { Within g (length image.now) × ReadableFrom g address.0 }
    ensures { (b : Budget) → ComesTo (turn_as g stand.new) (TurnIn g stand.new) g b (read_turn g (length buffer.old) address.0 image.now) image.now image.now buffer.old buffer.new (searched result b) result }
{
    let p = chip::calculate_page_index(g, address);
    let end = chip::page_data_end_address(g, p);
    match read_items(image, buffer, g, address, end) {
        Ok(None) => {
            *stand = NextAddress::PageAfter(p);
            Ok(ControlFlow::Continue(()))
        }
        Err(Long { from, size }) => {
            *stand = NextAddress::Address(from);
            Err(Ended::TooSmall(size))
        }
        Ok(Some(item)) => {
            let behind = item.header.next_item_address(g, item.address);
            *stand = stand_at(g, p, end, behind);
            Ok(ControlFlow::Break(Some(item)))
        }
    }
}

// Where a search stands that has come to this address of page p, whose data ends at `end`.
#[tactic(auto, using(crate::proofs::Standing::stands_behind))]
fn stand_at(g: Geometry, p: Page, end: Address, address: Address) -> NextAddress
    requires { Good g × (p.0 < g.pages) × (end.0 ≡ data_end g p.0) × (page_start g p.0 ≤ address.0) }
    ensures { (stand_as result ≡ stand_at g p.0 address.0) × StandIn g result }
{
    if address < end {
        return NextAddress::Address(address);
    }
    NextAddress::PageAfter(p)
}

// The first present item from `start` on, in data that ends at `end`: the payload of each live one goes to the buffer's front, and torn ones
// are passed.
fn read_items(
    image: &[u8],
    buffer: &mut [u8],
    g: Geometry,
    start: Address,
    end: Address,
) -> Result<Option<Item>, Long>
    requires { Inside g (length image.now) start.0 end.0 }
    ensures { Copies (met_as g) (MetIn g start.0 end.0) g (read_heads g (length buffer.old) start.0 (walk_from g image.now end.0 start.0).heads image.now) image.now buffer.old buffer.new result }
{
    let mut from = start;
    while let Some(item) = item::next_live(image, g, from, end) {
        match item.header.read_item(image, buffer, g, item.address) {
            Ok(MaybeItem::Present(_)) => return Ok(Some(item)),
            Err(TooSmall(size)) => return Err(Long { from, size }),
            // The Rust answers LogicBug where the scan that stops at live headers stopped at a popped one. It never does, and that is proved.
            Ok(MaybeItem::Erased(_)) => unreachable!(),
            Ok(MaybeItem::Corrupted(_)) => from = item.header.next_item_address(g, item.address),
        }
    }
    Ok(None)
}

// ---- leaving a page

// `clears` says that nothing in page p is present. Where the search goes on behind it, p is then erased at once, torn items and all, so that
// no later search has to go through it again.
fn leave_page(
    image: &mut [u8],
    budget: &mut Budget,
    g: Geometry,
    oldest: Page,
    clears: bool,
    p: Page,
    stand: &mut NextAddress,
) -> Result<ControlFlow<Option<Item>>, Ended>
    requires { Within g (length image.old) × (p.0 < g.pages) × (stand.old ≡ NextAddress.PageAfter p) }
    ensures { Stores (turn_as g stand.new) (TurnIn g stand.new) g budget.old (leave_turn g oldest.0 clears p.0 image.old) image.old image.new (searched result budget.new) result }
{
    let next_page = page::next_page(g, p);
    let state = page::get_page_state(&image[..], g, next_page);
    if state == PageState::Corrupted {
        return Err(Ended::Corrupted);
    }
    if state == PageState::Open || next_page == oldest {
        return Ok(ControlFlow::Break(None));
    }
    if clears {
        page::open_page(image, budget, g, p)?;
    }
    let address = chip::page_data_start_address(g, next_page);
    *stand = NextAddress::Address(address);
    Ok(ControlFlow::Continue(()))
}
