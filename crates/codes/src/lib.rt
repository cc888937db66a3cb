// The answers of the calls, each as one number: document 01's row, and the value that comes with it. The C face hands them out, and the
// program that replays calls prints them.
#![tactic(auto)]

ghost use Rattle.std.specs.Prelude.{◌≡◌, ◌<◌};
ghost use Rattle.paper.specs.Refusals.{row, pushed_as, shown_as, fit_as, space_as, erased_as};
ghost use Rattle.codes.specs.Codes.{code, row_code, code_of};

use paper::Refusal;

// Lengths and sizes are far below 2^32; the remainder keeps the sum within 64 bits for any number. There is no `From` from usize to u64.
#[tactic(auto, unfolding(crate::specs::Codes::code))]
pub fn coded(row: u64, value: usize) -> u64
    requires { row < 4294967296 }
    ensures { result ≡ code row value }
{
    ((value % 4294967296) as u64) * 4294967296 + row
}

// The rows of document 01.
#[tactic(auto, unfolding(paper::specs::Refusals::row))]
pub fn refusal_code(refusal: Refusal) -> u64
    ensures { result ≡ row_code (row refusal) }
{
    match refusal {
        Refusal::ItemTooBig => 2,
        Refusal::FullStorage => 3,
        Refusal::BufferTooSmall(n) => coded(4, n),
        Refusal::Corrupted => 5,
        Refusal::Cut => 7,
        Refusal::BadGeometry => 9,
        Refusal::StartRangeNotAtPageBoundary => 10,
        Refusal::EndRangeNotAtPageBoundary => 11,
        Refusal::RangeTooSmall => 12,
        Refusal::PagesTooSmall => 13,
        Refusal::WordSizeTooLarge => 14,
        Refusal::BadWord => 15,
        Refusal::TooLarge => 16,
        Refusal::OutsideImage => 17,
    }
}

pub fn pushed_code(answer: Result<(), Refusal>) -> u64
    ensures { result ≡ code_of (pushed_as answer) }
{
    match answer {
        Ok(()) => 0,
        Err(refusal) => refusal_code(refusal),
    }
}

pub fn shown_code(answer: Result<Option<usize>, Refusal>) -> u64
    ensures { result ≡ code_of (shown_as answer) }
{
    match answer {
        Ok(Some(n)) => coded(0, n),
        Ok(None) => 1,
        Err(refusal) => refusal_code(refusal),
    }
}

pub fn fit_code(answer: Result<Option<usize>, Refusal>) -> u64
    ensures { result ≡ code_of (fit_as answer) }
{
    match answer {
        Ok(Some(n)) => coded(0, n),
        // No page is that large, so it is no length. This number is all that tells the function from shown_code, and C has both.
        Ok(None) => coded(0, 0xffff_ffff),
        Err(refusal) => refusal_code(refusal),
    }
}

pub fn space_code(answer: Result<usize, Refusal>) -> u64
    ensures { result ≡ code_of (space_as answer) }
{
    match answer {
        Ok(n) => coded(0, n),
        Err(refusal) => refusal_code(refusal),
    }
}

// The codes of erase_all are those of a push. Each call has a function here by which the C face and the replay turn its answer.
pub fn erased_code(answer: Result<(), Refusal>) -> u64
    ensures { result ≡ code_of (erased_as answer) }
{
    pushed_code(answer)
}
