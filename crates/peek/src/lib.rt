// Peek and pop: what the two calls make of what the search finds. Names and order are those of the Rust's src/queue/mod.rs.
#![tactic(auto)]

ghost use Rattle.std.specs.Prelude.{length};
ghost use Rattle.paper.specs.Refusals.{shown_as};
ghost use Rattle.paper.specs.Search as plans;
ghost use Rattle.chip.specs.Within.{Within};
ghost use Rattle.chip.specs.Run.{WholeShown, under};

use chip::Budget;
use paper::{Geometry, Refusal};

// ---- the calls

// Peek stores too: repairs, and the erases of pages that it left because nothing in them is present.
pub fn peek(
    image: &mut [u8],
    buffer: &mut [u8],
    mut budget: Budget,
    g: Geometry,
) -> Result<Option<usize>, Refusal>
    requires { Within g (length image.old) }
    ensures { WholeShown g (under budget (plans.peek g image.old (length buffer.old))) image.old image.new buffer.old buffer.new (shown_as result) }
{
    let found = search::search(image, buffer, &mut budget, g)?;
    Ok(found.map(|item| usize::from(item.header.length)))
}

// QueueIteratorEntry::pop, for what was found. A search that was cut stores nothing more: the first k stores of a call are those of its
// search and then those of the header.
pub fn pop(
    image: &mut [u8],
    buffer: &mut [u8],
    mut budget: Budget,
    g: Geometry,
) -> Result<Option<usize>, Refusal>
    requires { Within g (length image.old) }
    ensures { WholeShown g (under budget (plans.pop g image.old (length buffer.old))) image.old image.new buffer.old buffer.new (shown_as result) }
{
    let Some(item) = search::search(image, buffer, &mut budget, g)? else {
        return Ok(None);
    };
    item.header.erase_data(image, &mut budget, g, item.address)?;
    Ok(Some(usize::from(item.header.length)))
}
