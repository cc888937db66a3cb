// The counts, and the erase of everything: find_max_fit and space_left of the Rust's src/queue/mod.rs, each with its repair, and erase_all of
// src/lib.rs, on a checked geometry and under a budget of stores.
#![tactic(auto)]

ghost use Rattle.std.specs.Prelude.{◌≡◌, List, ℕ, ◌<◌, length};
ghost use Rattle.paper.specs.declared.Geometry.{Geometry};
ghost use Rattle.paper.specs.declared.PageState.TheVariants.{PartialOpen};
ghost use Rattle.paper.specs.Chip.{Try};
ghost use Rattle.paper.specs.Scan.{page_walk};
ghost use Rattle.paper.specs.Pages.{state, next};
ghost use Rattle.paper.specs.Refusals.{Answer, number, fit_as, space_as, erased_as};
ghost use Rattle.paper.specs.Counts.{longest, fit_by, fit, find_max_fit, space, space_left, counted};
ghost use Rattle.paper.specs.Calls.{erase_all};
ghost use Rattle.chip.specs.Within.{Good, Within};
ghost use Rattle.chip.specs.Run.{spent, Ran, Whole, under};
ghost use Rattle.item.specs.Headers.{available_as};
ghost use Rattle.count.specs.Counts.{counted_as, answered, empty_by, SpaceIs};

use chip::{Budget, Corrupted, Failure, Page};
use item::ItemHeader;
use paper::{Geometry, PageState, Refusal};

// A count of the free space. It stores nothing; the repair between two runs of one does.
trait Count {
    type Number;

    // The step that it is in the paper, and what its number stands for.
    ghost step: { Geometry → List ℕ → Try Unit Answer };

    ghost answer: { Self.Number → Answer };

    fn run(image: &[u8], g: Geometry) -> Result<Self::Number, Corrupted>
        requires { Within g (length image.now) }
        ensures { counted_as answer result ≡ step g image.now };
}

struct MaxFit;

struct SpaceLeft;

impl Count for MaxFit {
    type Number = Option<usize>;

    ghost step = { fit };

    ghost answer = { available_as };

    fn run(image: &[u8], g: Geometry) -> Result<Option<usize>, Corrupted> {
        find_max_fit_inner(image, g)
    }
}

impl Count for SpaceLeft {
    type Number = usize;

    ghost step = { space };

    ghost answer = { number };

    fn run(image: &[u8], g: Geometry) -> Result<usize, Corrupted> {
        space_left_inner(image, g)
    }
}

// The count; where it meets a Corrupted page, once more after a repair. A closure in the trait's place would have to be tied to the paper's step
// by clauses at each use.
fn run_with_auto_repair<C: Count>(
    image: &mut [u8],
    budget: &mut Budget,
    g: Geometry,
) -> Result<C::Number, Failure>
    requires { Within g (length image.old) }
    ensures { Ran g budget.old (counted g image.old (C.step g)) image.old image.new (spent result budget.new) (answered C.answer result) }
{
    match C::run(&image[..], g) {
        Ok(number) => Ok(number),
        Err(_) => {
            page::try_general_repair(image, budget, g)?;
            Ok(C::run(&image[..], g)?)
        }
    }
}

// ---- find_max_fit

pub fn find_max_fit(
    image: &mut [u8],
    mut budget: Budget,
    g: Geometry,
) -> Result<Option<usize>, Refusal>
    requires { Within g (length image.old) }
    ensures { Whole g (under budget (find_max_fit g image.old)) image.old image.new (fit_as result) }
{
    Ok(run_with_auto_repair::<MaxFit>(image, &mut budget, g)?)
}

#[tactic(auto, unfolding(paper::specs::Counts::fit), using(page::proofs::Searching::seen))]
fn find_max_fit_inner(image: &[u8], g: Geometry) -> Result<Option<usize>, Corrupted>
    requires { Within g (length image.now) }
    ensures { counted_as available_as result ≡ fit g image.now }
{
    let table = page::page_states(image, g);
    let current = page::find_youngest_page(table, g)?;
    fit_from(image, g, current)
}

// Space on the next page comes first; else the current page has what is behind its free spot.
#[tactic(auto, unfolding(paper::specs::Counts::fit_by, crate::specs::Counts::empty_by))]
fn fit_from(image: &[u8], g: Geometry, current: Page) -> Result<Option<usize>, Corrupted>
    requires { Within g (length image.now) × (current.0 < g.pages) }
    ensures { counted_as available_as result ≡ fit_by g image.now current.0 (state g image.now (next g current.0)) }
{
    let next = page::next_page(g, current);
    let state = page::get_page_state(image, g, next);
    match state {
        PageState::Closed => {
            if is_page_empty(image, g, next, state) {
                return Ok(Some(chip::calculate_page_size(g)));
            }
            Ok(fit_behind(image, g, current))
        }
        PageState::Open => Ok(Some(chip::calculate_page_size(g))),
        // The Rust: this should never happen.
        PageState::PartialOpen => Err(Corrupted),
        PageState::Corrupted => Err(Corrupted),
    }
}

#[tactic(auto, using(item::proofs::Serving::available_longest))]
fn fit_behind(image: &[u8], g: Geometry, current: Page) -> Option<usize>
    requires { Within g (length image.now) × (current.0 < g.pages) }
    ensures { available_as result ≡ longest g (page_walk g image.now current.0).rest }
{
    let free = item::find_free_in_page(image, g, current);
    ItemHeader::available_data_bytes(g, free.left)
}

// ---- space_left

pub fn space_left(image: &mut [u8], mut budget: Budget, g: Geometry) -> Result<usize, Refusal>
    requires { Within g (length image.old) }
    ensures { Whole g (under budget (space_left g image.old)) image.old image.new (space_as result) }
{
    Ok(run_with_auto_repair::<SpaceLeft>(image, &mut budget, g)?)
}

// The sum fits: it is below 256 times 2^32.
#[tactic(auto, unfolding(paper::specs::Counts::space), using(crate::proofs::Spaces::sums))]
fn space_left_inner(image: &[u8], g: Geometry) -> Result<usize, Corrupted>
    requires { Within g (length image.now) }
    ensures { counted_as number result ≡ space g image.now }
{
    let mut total_free_space: usize = 0;
    for page_index in 0..g.pages {
        let page = Page(page_index);
        let state = page::get_page_state(image, g, page);
        if state == PageState::Corrupted {
            return Err(Corrupted);
        }
        total_free_space += space_in_page(image, g, page, state);
    }
    Ok(total_free_space)
}

#[tactic(auto, unfolding(paper::specs::Chip::data_size), using(crate::proofs::Spaces::space_in))]
fn space_in_page(image: &[u8], g: Geometry, page: Page, state: PageState) -> usize
    requires { Within g (length image.now) × (page.0 < g.pages) }
    ensures { SpaceIs g image.now page.0 state result }
{
    if is_page_empty(image, g, page, state) {
        return chip::calculate_page_size(g);
    }
    if state == PageState::Closed {
        return 0;
    }
    space_behind(image, g, page)
}

// A PartialOpen page has what is behind its free spot. If no header fits there any more and all on the page is popped, it might as well be
// empty: asked for a Closed page, is_page_empty looks at the items.
fn space_behind(image: &[u8], g: Geometry, page: Page) -> usize
    requires { Within g (length image.now) × (page.0 < g.pages) }
    ensures { SpaceIs g image.now page.0 PartialOpen result }
{
    let free = item::find_free_in_page(image, g, page);
    if ItemHeader::available_data_bytes(g, free.left).is_some() {
        return free.left;
    }
    if is_page_empty(image, g, page, PageState::Closed) {
        return chip::calculate_page_size(g);
    }
    free.left
}

// Whether all of a page may be used: by its state, and where that is Closed by its items.
#[tactic(auto, unfolding(crate::specs::Counts::empty_by))]
fn is_page_empty(image: &[u8], g: Geometry, page: Page, state: PageState) -> bool
    requires { Within g (length image.now) × (page.0 < g.pages) }
    ensures { result ≡ empty_by g image.now page.0 state }
{
    match state {
        PageState::Closed => !item::page_contains_live_data(image, g, page),
        PageState::Open => true,
        PageState::PartialOpen | PageState::Corrupted => false,
    }
}

// ---- erase_all

pub fn erase_all(image: &mut [u8], mut budget: Budget, g: Geometry) -> Result<(), Refusal>
    requires { Within g (length image.old) }
    ensures { Whole g (under budget (erase_all g)) image.old image.new (erased_as result) }
{
    for p in 0..g.pages {
        chip::erase_page(image, &mut budget, g, Page(p))?;
    }
    Ok(())
}
