// The two checksums, on inputs whose answers the Rust crate gave: oracle/checksums makes stdin and stdout.
use std::io::{self, BufRead, ErrorKind, Read, Write};

// Prints the published check value of CRC-32C, which starts from all ones.
pub fn check_value<W: Write>(output: &mut W) -> io::Result<()> {
    let crc = checksum::crc32_with_initial(b"123456789", 0xffff_ffff);
    writeln!(output, "{crc:08x}")
}

// Reads cases until the input ends, and prints a line for each. A proved loop has to end, and nothing says that the input
// does. So the loop counts its turns, up to a number that no run reaches.
pub fn cases<R: BufRead, W: Write>(input: &mut R, output: &mut W) -> io::Result<()> {
    for _ in 0..u64::MAX {
        if !next_case(input, output)? {
            break;
        }
    }
    Ok(())
}

// Reads a case, which is a length in two bytes, low byte first, and that many bytes. Prints its line, and answers whether to
// go on.
fn next_case<R: BufRead, W: Write>(input: &mut R, output: &mut W) -> io::Result<bool> {
    if input.fill_buf()?.is_empty() {
        return Ok(false);
    }
    let mut field = [0u8; 2];
    if !fills(input, &mut field)? {
        return refuse(output);
    }
    let mut space = [0u8; 65536];
    let size = usize::from(u16::from_le_bytes(field));
    read_bytes(input, output, &mut space[..size])
}

// Reads the bytes of a case, and prints its line.
fn read_bytes<R: Read, W: Write>(
    input: &mut R,
    output: &mut W,
    bytes: &mut [u8],
) -> io::Result<bool> {
    if !fills(input, bytes)? {
        return refuse(output);
    }
    print_case(output, bytes)?;
    Ok(true)
}

// Whether the input fills `bytes` before it ends. replay has the same lines: the two programs share no library that reads.
fn fills<R: Read>(input: &mut R, bytes: &mut [u8]) -> io::Result<bool> {
    match input.read_exact(bytes) {
        Ok(()) => Ok(true),
        Err(e) if e.kind() == ErrorKind::UnexpectedEof => Ok(false),
        Err(e) => Err(e),
    }
}

// Prints a case's length, length CRC and data CRC.
fn print_case<W: Write>(output: &mut W, bytes: &[u8]) -> io::Result<()> {
    let size = bytes.len();
    let length_crc = checksum::crc16(bytes);
    let data_crc = checksum::adapted_crc32(bytes);
    writeln!(output, "{size} {length_crc:04x} {data_crc:08x}")
}

// Says that the input ends inside a case, and answers not to go on.
fn refuse<W: Write>(output: &mut W) -> io::Result<bool> {
    writeln!(output, "malformed: the input ends inside a case")?;
    Ok(false)
}
