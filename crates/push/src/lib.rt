// Push: a slip that is not too big gets a spot, and is written there. The search for the spot goes in the order of the Rust's push_inner:
// the youngest page is marked, then it is scanned, and where it has no room the next page is turned to.
#![tactic(auto)]

ghost use Rattle.std.specs.Prelude.{◌≡◌, cond, false, not, ◌&&◌, [], ◌∷◌, ◌++◌, ◌<◌, eqb, length};
ghost use Rattle.paper.specs.Chip.{erase_page, bind, gives};
ghost use Rattle.paper.specs.Scan.{page_walk, any_live};
ghost use Rattle.paper.specs.Pages.{state, set_start, set_end, next};
ghost use Rattle.paper.specs.Refusals.{pushed_as};
ghost use Rattle.paper.specs.Push.{too_big, take_page, turn_page, find_spot, spot_on, spot_step, spot_for, push_at};
ghost use Rattle.paper.specs.Push as plans;
ghost use Rattle.chip.specs.Within.{Good, Within};
ghost use Rattle.chip.specs.Run.{paid, spent, Did, Ran, Whole, under};
ghost use Rattle.push.specs.Trying.{spot_as, Finds};

use chip::{Address, Budget, Cut, Failure, Page};
use item::Item;
use paper::{Geometry, PageState, Refusal};

// The length field of a header has 16 bits: the Rust's u16::MAX.
const LENGTH_LIMIT: usize = 65535;

// ---- the call

#[tactic(auto, unfolding(paper::specs::Push::push))]
pub fn push(
    image: &mut [u8],
    budget: Budget,
    g: Geometry,
    slip: &[u8],
    over: bool,
) -> Result<(), Refusal>
    requires { Within g (length image.old) }
    ensures { Whole g (under budget (plans.push g image.old slip.now over)) image.old image.new (pushed_as result) }
{
    if is_too_big(g, slip.len()) {
        return Err(Refusal::ItemTooBig);
    }
    push_inner(image, budget, g, slip, over)
}

// An item must fit into a single page.
#[tactic(auto, unfolding(paper::specs::Push::too_big))]
fn is_too_big(g: Geometry, n: usize) -> bool
    requires { Good g }
    ensures { result ≡ too_big g n }
{
    LENGTH_LIMIT < n || chip::calculate_page_size(g) < chip::header_size(g) + n
}

// The Rust runs the whole of its push_inner once more after a repair. Only the search for a spot fails with Corrupted, so here the repair
// is part of the search.
fn push_inner(
    image: &mut [u8],
    mut budget: Budget,
    g: Geometry,
    slip: &[u8],
    over: bool,
) -> Result<(), Refusal>
    requires { Within g (length image.old) × (too_big g (length slip.now) ≡ false) }
    ensures { Whole g (under budget (bind g image.old (spot_for g image.old (length slip.now) over) (push_at g slip.now))) image.old image.new (pushed_as result) }
{
    let spot = spot_for(image, &mut budget, g, slip.len(), over)?;
    let Some(address) = spot else {
        return Err(Refusal::FullStorage);
    };
    Item::write_new(image, &mut budget, g, address, slip)?;
    Ok(())
}

// ---- the search for a spot: the address where the item is to begin, or none where the storage is full. What is wanted, the slip's length and
// whether the oldest page may be used again, goes along as two words. A struct of the two could not hold the fact that the length is not too
// big, which is about the geometry too; nor could one of two pages hold that both lie in the ring.

// The search with auto-repair: a step that fails is run once more after a repair, and a second failure stands. These lines are its own
// (page::try_general_repair says why).
fn spot_for(
    image: &mut [u8],
    budget: &mut Budget,
    g: Geometry,
    n: usize,
    over: bool,
) -> Result<Option<Address>, Failure>
    requires { Within g (length image.old) × (too_big g n ≡ false) }
    ensures { Finds g budget.old n (spot_for g image.old n over) image.old image.new budget.new result }
{
    let spot = spot_step(image, budget, g, n, over);
    match spot {
        Ok(_) => spot,
        Err(Failure::Cut) => spot,
        Err(Failure::Corrupted) => {
            page::try_general_repair(image, budget, g)?;
            spot_step(image, budget, g, n, over)
        }
    }
}

// The states of one step, read once: a repair between two steps changes them.
#[tactic(auto, unfolding(paper::specs::Push::spot_step), using(page::proofs::Searching::seen))]
fn spot_step(
    image: &mut [u8],
    budget: &mut Budget,
    g: Geometry,
    n: usize,
    over: bool,
) -> Result<Option<Address>, Failure>
    requires { Within g (length image.old) × (too_big g n ≡ false) }
    ensures { Finds g budget.old n (spot_step g n over tt image.old) image.old image.new budget.new result }
{
    let states = page::page_states(&image[..], g);
    let current = page::find_youngest_page(states, g)?;
    spot_on(image, budget, g, n, over, current)
}

// The mark comes before the page's first item: from an Open page nothing would be read back.
fn spot_on(
    image: &mut [u8],
    budget: &mut Budget,
    g: Geometry,
    n: usize,
    over: bool,
    current: Page,
) -> Result<Option<Address>, Failure>
    requires { Within g (length image.old) × (current.0 < g.pages) × (too_big g n ≡ false) }
    ensures { Finds g budget.old n (spot_on g n over (gives current.0) image.old) image.old image.new budget.new result }
{
    page::partial_close_page(image, budget, g, current)?;
    find_spot(image, budget, g, n, over, current)
}

// The room behind the page's last item, where it is enough; what is left of a page that is turned stays unused.
fn find_spot(
    image: &mut [u8],
    budget: &mut Budget,
    g: Geometry,
    n: usize,
    over: bool,
    current: Page,
) -> Result<Option<Address>, Failure>
    requires { Within g (length image.old) × (current.0 < g.pages) × (too_big g n ≡ false) }
    ensures { Finds g budget.old n (find_spot g n over current.0 image.old) image.old image.new budget.new result }
{
    let spot = item::find_spot_in_page(&image[..], g, current, n);
    if spot.is_some() {
        return Ok(spot);
    }
    turn_page(image, budget, g, over, current)
}

// ---- the next page

// A PartialOpen page next to the current one should never be: both would be the youngest. The sole page is next to itself.
#[tactic(auto, unfolding(paper::specs::Push::turn_page), using(chip::proofs::Binding::ran_plan))]
fn turn_page(
    image: &mut [u8],
    budget: &mut Budget,
    g: Geometry,
    over: bool,
    current: Page,
) -> Result<Option<Address>, Failure>
    requires { Within g (length image.old) × (current.0 < g.pages) }
    ensures { Ran g budget.old (turn_page g over current.0 (next g current.0) (state g image.old (next g current.0)) image.old) image.old image.new (spent result budget.new) (spot_as result) }
{
    let following = page::next_page(g, current);
    let following_state = page::get_page_state(&image[..], g, following);
    match following_state {
        PageState::Open => {
            start_page(image, budget, g, current, following)?;
            Ok(Some(chip::page_data_start_address(g, following)))
        }
        PageState::PartialOpen => {
            if following == current {
                return take_page(image, budget, g, over, current, following);
            }
            Err(Failure::Corrupted)
        }
        PageState::Closed => take_page(image, budget, g, over, current, following),
        PageState::Corrupted => Err(Failure::Corrupted),
    }
}

// An Open page is used as it is. The current page is closed first, so that a cut never leaves two PartialOpen pages.
fn start_page(
    image: &mut [u8],
    budget: &mut Budget,
    g: Geometry,
    current: Page,
    following: Page,
) -> Result<(), Cut>
    requires { Within g (length image.old) × (current.0 < g.pages) × (following.0 < g.pages) }
    ensures { Did g budget.old (set_end g current.0 ∷ set_start g following.0 ∷ []) image.old image.new (paid result budget.new) }
{
    page::close_page(image, budget, g, current)?;
    page::mark_start(image, budget, g, following)
}

// A Closed page behind the current one is the oldest, and the sole page is oldest and youngest: it is used again.
#[tactic(auto, unfolding(paper::specs::Push::take_page), using(chip::proofs::Binding::ran_plan, chip::proofs::Early::ran_ends))]
fn take_page(
    image: &mut [u8],
    budget: &mut Budget,
    g: Geometry,
    over: bool,
    current: Page,
    following: Page,
) -> Result<Option<Address>, Failure>
    requires { Within g (length image.old) × (current.0 < g.pages) × (following.0 < g.pages) }
    ensures { Ran g budget.old (take_page g over current.0 following.0 image.old) image.old image.new (spent result budget.new) (spot_as result) }
{
    if is_kept(&image[..], g, over, following) {
        return Ok(None);
    }
    reuse_page(image, budget, g, current, following)?;
    Ok(Some(chip::page_data_start_address(g, following)))
}

// Without overwriting a page with live items is kept. A torn item is live too: its room is not free.
fn is_kept(image: &[u8], g: Geometry, over: bool, p: Page) -> bool
    requires { Within g (length image.now) × (p.0 < g.pages) }
    ensures { result ≡ (not over && any_live (page_walk g image.now p.0).heads) }
{
    !over && item::page_contains_live_data(image, g, p)
}

// The erase comes first: were the current page closed before it, a cut between the two would leave all pages Closed, and no youngest page.
fn reuse_page(
    image: &mut [u8],
    budget: &mut Budget,
    g: Geometry,
    current: Page,
    following: Page,
) -> Result<(), Cut>
    requires { Within g (length image.old) × (current.0 < g.pages) × (following.0 < g.pages) }
    ensures { Did g budget.old (erase_page g following.0 ++ (cond (eqb following.0 current.0) [] (set_end g current.0 ∷ []) ++ (set_start g following.0 ∷ []))) image.old image.new (paid result budget.new) }
{
    page::open_page(image, budget, g, following)?;
    close_other(image, budget, g, current, following)?;
    page::mark_start(image, budget, g, following)
}

// The sole page was erased just now, and is not closed: it stays the current one.
fn close_other(
    image: &mut [u8],
    budget: &mut Budget,
    g: Geometry,
    current: Page,
    following: Page,
) -> Result<(), Cut>
    requires { Within g (length image.old) × (current.0 < g.pages) }
    ensures { Did g budget.old (cond (eqb following.0 current.0) [] (set_end g current.0 ∷ [])) image.old image.new (paid result budget.new) }
{
    if following == current {
        return Ok(());
    }
    page::close_page(image, budget, g, current)
}
