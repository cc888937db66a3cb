// The calls. Each is made on the image, whole or with its limit.
use crate::print;
use crate::record::Record;
use std::io::{self, Write};

// Answers whether there is such a call.
pub fn play<W: Write>(
    output: &mut W,
    image: &mut [u8],
    lent: &mut [u8],
    asked: Record,
) -> io::Result<bool> {
    let Some(code) = answer(image, lent, asked) else {
        return print::malformed(output, "a letter that stands for nothing");
    };
    print::line(output, asked.letter, code, image, lent)?;
    Ok(true)
}

// The code of what the call answers, if there is such a call.
fn answer(image: &mut [u8], lent: &mut [u8], asked: Record) -> Option<u64> {
    let s = asked.shape;
    let limit = asked.limit();
    match asked.letter {
        b'p' => Some(codes::pushed_code(queue::push(image, s, lent, asked.overwrites(), limit))),
        b'k' => Some(codes::shown_code(queue::peek(image, lent, s, limit))),
        b'o' => Some(codes::shown_code(queue::pop(image, lent, s, limit))),
        b'f' => Some(codes::fit_code(queue::find_max_fit(image, s, limit))),
        b's' => Some(codes::space_code(queue::space_left(image, s, limit))),
        b'e' => Some(codes::erased_code(queue::erase_all(image, s, limit))),
        _ => None,
    }
}
