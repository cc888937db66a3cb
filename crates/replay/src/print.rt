// The lines that are printed. Numbers and bytes are in hexadecimal.
use std::io::{self, Write};

// More bytes than these are told by their checksum alone.
const FEW: usize = 64;

pub fn line<W: Write>(
    output: &mut W,
    letter: u8,
    code: u64,
    image: &[u8],
    lent: &[u8],
) -> io::Result<()> {
    output.write_all(&[letter, b' '])?;
    write!(output, "{code:016x}")?;
    content(output, image)?;
    content(output, lent)?;
    output.write_all(b"\n")
}

fn content<W: Write>(output: &mut W, bytes: &[u8]) -> io::Result<()> {
    output.write_all(b" ")?;
    if bytes.len() > FEW {
        let crc = checksum::adapted_crc32(bytes);
        return write!(output, "{crc:08x}");
    }
    for b in bytes {
        write!(output, "{b:02x}")?;
    }
    Ok(())
}

// Says what is wrong with the input, and answers not to go on.
pub fn malformed<W: Write>(output: &mut W, what: &str) -> io::Result<bool> {
    writeln!(output, "malformed: {what}")?;
    Ok(false)
}
