// Runs checksum cases, and prints what they give; the gate compares that with the file stdout.
#![tactic(auto)]

mod checksums;

use std::io::{self, BufReader, BufWriter, Write};

fn main(rt: HostRuntime) -> io::Result<()> {
    let mut input = BufReader::new(rt.alloc(), rt.reader())?;
    let mut output = BufWriter::new(rt.alloc(), io::writer(&rt))?;
    checksums::check_value(&mut output)?;
    checksums::cases(&mut input, &mut output)?;
    output.flush()
}
