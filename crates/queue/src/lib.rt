// The public face of the queue: the check of a geometry, and six calls. They take any shape, image, slip, buffer and limit: none of them
// requires anything. A call is whole without a limit on its stores; with one, it makes no more stores than that, and is cut where it would
// make more.
#![tactic(auto)]

ghost use Rattle.std.specs.Prelude.{◌≡◌, length};
ghost use Rattle.paper.specs.Refusals.{check, pushed_as, shown_as, fit_as, space_as, erased_as};
ghost use Rattle.paper.specs.Calls.{pushes, peeks, pops, fits, spaces, erases_all};
ghost use Rattle.queue.specs.Promises.{AnswersUnder, ShowsUnder};

use chip::Budget;
use paper::{Geometry, Refusal, Shape};

// Whether the calls take a shape over an image of `n` bytes, and what they refuse it with.
pub fn check_geometry(n: usize, s: Shape) -> Result<Geometry, Refusal>
    ensures { result ≡ check n s }
{
    chip::check_geometry(n, s)
}

// `over`: whether a push may use the oldest page again though slips wait there.
pub fn push(
    image: &mut [u8],
    s: Shape,
    slip: &[u8],
    over: bool,
    limit: Option<usize>,
) -> Result<(), Refusal>
    ensures { AnswersUnder limit s (pushes slip.now over) image.old image.new (pushed_as result) }
{
    let g = chip::check_geometry(image.len(), s)?;
    push::push(image, Budget(limit), g, slip, over)
}

// Peek too may store: it repairs, and erases finished pages. It and pop are two calls of the Rust: one function would take a flag in the place of
// the name.
pub fn peek(
    image: &mut [u8],
    buffer: &mut [u8],
    s: Shape,
    limit: Option<usize>,
) -> Result<Option<usize>, Refusal>
    ensures { ShowsUnder limit s (peeks buffer.old) image.old image.new buffer.old buffer.new (shown_as result) }
{
    let g = chip::check_geometry(image.len(), s)?;
    peek::peek(image, buffer, Budget(limit), g)
}

pub fn pop(
    image: &mut [u8],
    buffer: &mut [u8],
    s: Shape,
    limit: Option<usize>,
) -> Result<Option<usize>, Refusal>
    ensures { ShowsUnder limit s (pops buffer.old) image.old image.new buffer.old buffer.new (shown_as result) }
{
    let g = chip::check_geometry(image.len(), s)?;
    peek::pop(image, buffer, Budget(limit), g)
}

pub fn find_max_fit(
    image: &mut [u8],
    s: Shape,
    limit: Option<usize>,
) -> Result<Option<usize>, Refusal>
    ensures { AnswersUnder limit s fits image.old image.new (fit_as result) }
{
    let g = chip::check_geometry(image.len(), s)?;
    count::find_max_fit(image, Budget(limit), g)
}

pub fn space_left(image: &mut [u8], s: Shape, limit: Option<usize>) -> Result<usize, Refusal>
    ensures { AnswersUnder limit s spaces image.old image.new (space_as result) }
{
    let g = chip::check_geometry(image.len(), s)?;
    count::space_left(image, Budget(limit), g)
}

pub fn erase_all(image: &mut [u8], s: Shape, limit: Option<usize>) -> Result<(), Refusal>
    ensures { AnswersUnder limit s erases_all image.old image.new (erased_as result) }
{
    let g = chip::check_geometry(image.len(), s)?;
    count::erase_all(image, Budget(limit), g)
}
