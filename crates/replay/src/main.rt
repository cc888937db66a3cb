// Plays calls on the queue and prints what each comes to; the gate compares that with the file stdout. stdin holds the calls and stdout
// what the unchanged Rust crate answered to them: oracle/replay makes both.
//
// stdin is a row of records, each of 32 bytes: a letter, flags, a byte, a byte that is not used, and seven numbers of four bytes each, the
// low byte first.
//
//   letter   L lays bytes in the image; the others are calls: p push, k peek, o pop, f find_max_fit, s space_left, e erase_all
//   flags    1 overwrite, 2 limited, 4 on a copy, so that the image stays, 8 filled
//   numbers  count, at, size, start, end, page, word
//
// A record brings `count` bytes: those that L lays from the address `at` on, a push's slip, a peek's or a pop's buffer. Where it is filled
// they all are its third byte; otherwise they follow the record. A call is made on the image's first `size` bytes; its limit is `at`.
//
// A call prints a line: its letter, its answer's code, the image, and the slip or buffer. Up to 64 bytes are printed whole, more by their
// data checksum. An input that is not of this form ends the run with a line that says why.
#![tactic(auto)]

mod call;
mod print;
mod record;

use record::Record;
use std::io::{self, BufRead, BufReader, BufWriter, ErrorKind, Read, Write};

// The largest range that is played, 4 pages of 65,536 bytes, and 32 KiB more: an image may begin before its range and end behind it. A
// range may have 16 MiB; those are left to ./compare --large, so that this room stays small.
const IMAGE: usize = 294912;
// The image, and behind it the copy.
const ROOM: usize = 2 * IMAGE;
// One more than the longest slip.
const LENT: usize = 65536;

fn main(rt: HostRuntime) -> io::Result<()> {
    let mut input = BufReader::new(rt.alloc(), rt.reader())?;
    let mut output = BufWriter::new(rt.alloc(), io::writer(&rt))?;
    let mut room = [0u8; ROOM];
    let mut lent = [0u8; LENT];
    replay(&mut input, &mut output, &mut room, &mut lent)?;
    output.flush()
}

// Input, output, the room and what is lent go along as four words: a struct that holds the four would be taken apart at each use.
//
// A proved loop has to end, and nothing says that the input does. So the loop counts its turns, up to a number that no run reaches.
fn replay<R: BufRead, W: Write>(
    input: &mut R,
    output: &mut W,
    room: &mut [u8; ROOM],
    lent: &mut [u8; LENT],
) -> io::Result<()> {
    for _ in 0..u64::MAX {
        if !next_record(input, output, room, lent)? {
            break;
        }
    }
    Ok(())
}

// Answers whether to go on.
fn next_record<R: BufRead, W: Write>(
    input: &mut R,
    output: &mut W,
    room: &mut [u8; ROOM],
    lent: &mut [u8; LENT],
) -> io::Result<bool> {
    if input.fill_buf()?.is_empty() {
        return Ok(false);
    }
    let mut field = [0u8; 32];
    if !fills(input, &mut field)? {
        return print::malformed(output, "a record that is cut short");
    }
    let asked = Record::decoded(&field);
    if asked.letter == b'L' {
        return lay(input, output, room, asked);
    }
    play(input, output, room, lent, asked)
}

fn lay<R: Read, W: Write>(
    input: &mut R,
    output: &mut W,
    room: &mut [u8; ROOM],
    asked: Record,
) -> io::Result<bool> {
    let from = asked.at as usize;
    let to = from + (asked.count as usize);
    if to > IMAGE {
        return print::malformed(output, "bytes that the image has no room for");
    }
    bring(input, output, &mut room[from..to], asked)
}

fn play<R: Read, W: Write>(
    input: &mut R,
    output: &mut W,
    room: &mut [u8; ROOM],
    lent: &mut [u8; LENT],
    asked: Record,
) -> io::Result<bool> {
    let size = asked.size as usize;
    let count = asked.count as usize;
    if size > IMAGE {
        return print::malformed(output, "an image that is too large");
    }
    if count > LENT {
        return print::malformed(output, "a slip or a buffer that is too large");
    }
    let lent = &mut lent[..count];
    if !bring(input, output, lent, asked)? {
        return Ok(false);
    }
    let (image, copy) = room.split_at_mut(IMAGE);
    let image = &mut image[..size];
    if asked.is_on_copy() {
        let copy = &mut copy[..size];
        copy.copy_from_slice(image);
        return call::play(output, copy, lent, asked);
    }
    call::play(output, image, lent, asked)
}

// The bytes of a record. Answers whether they are all there.
fn bring<R: Read, W: Write>(
    input: &mut R,
    output: &mut W,
    bytes: &mut [u8],
    asked: Record,
) -> io::Result<bool> {
    if asked.is_filled() {
        bytes.fill(asked.byte);
        return Ok(true);
    }
    if !fills(input, bytes)? {
        return print::malformed(output, "bytes that are cut short");
    }
    Ok(true)
}

// Whether the input fills `bytes` before it ends. cases has the same lines: the two programs share no library that reads.
fn fills<R: Read>(input: &mut R, bytes: &mut [u8]) -> io::Result<bool> {
    match input.read_exact(bytes) {
        Ok(()) => Ok(true),
        Err(e) if e.kind() == ErrorKind::UnexpectedEof => Ok(false),
        Err(e) => Err(e),
    }
}
