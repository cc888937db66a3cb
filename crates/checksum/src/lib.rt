// The two checksums of a slip on flash. Each is the remainder of a division of polynomials over GF(2), inverted and
// adjusted; `Checksum` of the crate `paper` says of which.
#![tactic(auto)]

ghost use Rattle.paper.specs.Checksum.{Crc, LengthCrc, DataCrc, length_poly, data_poly};
ghost use Rattle.checksum.specs.Register.{Shifted};

mod table;

// A register loses its bits at the low end, so bit i of `LENGTH_POLY` belongs to x^(15-i). Stored slips depend on it. The Rust's comment calls
// it CRC-16F/4.2, but it has no constant term.
const LENGTH_POLY: u16 = 0x1a2e;

// Two sums with a loop of one line each, as in the Rust. One generic function would be no plainer: a trait for the register, with its width,
// its divisor and the turn for a byte as members, to save that line.

// A crc that never returns 0xFFFF: that is what erased flash shows.
pub fn crc16(data: &[u8]) -> u16
    ensures { LengthCrc «data».now result }
{
    let mut crc: u16 = 0xffff;
    for b in data {
        crc = shifted16(crc ^ u16::from(*b));
    }
    crc ^= 0xffff;
    match crc {
        0xffff => 0xfffe,
        other => other,
    }
}

// A turn for a byte stands by itself, so that what a caller knows of it is one division, however it is computed.
#[tactic(auto, using(crate::proofs::BitLoop::held_none, crate::proofs::BitLoop::held_all))]
fn shifted16(crc: u16) -> u16
    ensures { Shifted 16 length_poly crc result }
{
    let mut c = crc;
    for _ in 0..8u16 {
        if c & 1 == 1 {
            c = (c >> 1) ^ LENGTH_POLY;
        } else {
            c >>= 1;
        }
    }
    c
}

// The crc of a payload as a header holds it.
#[tactic(auto, unfolding(paper::specs::Checksum::data_adjusted))]
pub fn adapted_crc32(data: &[u8]) -> u32
    ensures { DataCrc «data».now result }
{
    let crc = crc32(data);
    // A stored 0 means that the slip was popped.
    if crc == 0 {
        return 1;
    }
    // Where a pop is cut after the first byte of the crc, it must be wrong already; where a push has written that byte, it
    // must not look erased.
    if crc % 256 == 0 || crc % 256 == 0xff {
        return crc ^ 1;
    }
    crc
}

fn crc32(data: &[u8]) -> u32
    ensures { Crc 32 data_poly 0xeeee_eeee «data».now result }
{
    // With the usual start, 0xFFFF_FFFF, four bytes of 0xFF have a crc of 0xFFFF_FFFF.
    crc32_with_initial(data, 0xeeee_eeee)
}

// Public for the published check value of CRC-32C, which is for the usual start.
pub fn crc32_with_initial(data: &[u8], initial: u32) -> u32
    ensures { Crc 32 data_poly initial «data».now result }
{
    let mut crc = initial;
    for b in data {
        crc = shifted32(crc ^ u32::from(*b));
    }
    !crc
}

fn shifted32(crc: u32) -> u32
    ensures { Shifted 32 data_poly crc result }
{
    // the low byte fits: no `try_from`, whose error never comes
    let low = (crc % 256) as u8;
    (crc >> 8) ^ table::entry(low)
}
