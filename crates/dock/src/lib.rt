// The C face of the queue: the check, one function for each call, whole and limited, and two that only look at the image. They take what C
// can pass, numbers, slices and a geometry as a struct, and answer one number. None of those that C can call requires anything.
// include/slipq.h declares them.
#![tactic(auto)]

ghost use Rattle.std.specs.Prelude.{◌≡◌, ◌-◌, ◌<◌, ◌≤◌, length};
ghost use Rattle.paper.specs.Chip.{part};
ghost use Rattle.paper.specs.Slip.{look};
ghost use Rattle.paper.specs.Refusals.{check};
ghost use Rattle.paper.specs.Calls.{pushes, peeks, pops, fits, spaces, erases_all};
ghost use Rattle.chip.specs.Within.{Within};
ghost use Rattle.item.specs.Places.{Inside, Room};
ghost use Rattle.item.specs.Reading.{head_at};
ghost use Rattle.codes.specs.Codes.{code_of_check};
ghost use Rattle.dock.specs.Promises.{shape_from, is_on, Returns, ReturnsWithin, ReturnsShown, ReturnsShownWithin};
ghost use Rattle.dock.specs.Sights.{state_code, kind, seen, sight, item_code};

use chip::{Address, Corrupted, Page};
use item::ItemHeader;
use paper::{Geometry, Shape};

// ---- what C passes

// In C a geometry is a struct of four numbers, and this array is its layout. A field more there is a number more here: no call gets another
// argument.
fn shape_of(geometry: &[u32; 4]) -> Shape
    ensures { result ≡ shape_from geometry.now }
{
    Shape {
        start: geometry[0],
        end: geometry[1],
        page: geometry[2],
        word: geometry[3],
    }
}

// ---- the check

#[unsafe(no_mangle)]
pub extern "C" fn slipq_check(image_len: usize, geometry: &[u32; 4]) -> u64
    ensures { result ≡ code_of_check (check image_len (shape_from geometry.now)) }
{
    let s = shape_of(geometry);
    match queue::check_geometry(image_len, s) {
        Ok(_) => 0,
        Err(refusal) => codes::refusal_code(refusal),
    }
}

// Below, each call of the queue has two functions, which differ in the limit: C has their names.

// ---- push

// C has no bool of its own: any number but 0 turns overwriting on.
#[unsafe(no_mangle)]
pub extern "C" fn slipq_push(
    image: &mut [u8],
    geometry: &[u32; 4],
    slip: &[u8],
    overwrite: u32,
) -> u64
    ensures { Returns (shape_from geometry.now) (pushes slip.now (is_on overwrite)) image.old image.new result }
{
    let s = shape_of(geometry);
    codes::pushed_code(queue::push(image, s, slip, overwrite != 0, None))
}

#[unsafe(no_mangle)]
pub extern "C" fn slipq_push_limited(
    image: &mut [u8],
    geometry: &[u32; 4],
    slip: &[u8],
    overwrite: u32,
    limit: usize,
) -> u64
    ensures { ReturnsWithin limit (shape_from geometry.now) (pushes slip.now (is_on overwrite)) image.old image.new result }
{
    let s = shape_of(geometry);
    codes::pushed_code(queue::push(image, s, slip, overwrite != 0, Some(limit)))
}

// ---- peek

#[unsafe(no_mangle)]
pub extern "C" fn slipq_peek(image: &mut [u8], geometry: &[u32; 4], buffer: &mut [u8]) -> u64
    ensures { ReturnsShown (shape_from geometry.now) (peeks buffer.old) image.old image.new buffer.old buffer.new result }
{
    let s = shape_of(geometry);
    codes::shown_code(queue::peek(image, buffer, s, None))
}

#[unsafe(no_mangle)]
pub extern "C" fn slipq_peek_limited(
    image: &mut [u8],
    geometry: &[u32; 4],
    buffer: &mut [u8],
    limit: usize,
) -> u64
    ensures { ReturnsShownWithin limit (shape_from geometry.now) (peeks buffer.old) image.old image.new buffer.old buffer.new result }
{
    let s = shape_of(geometry);
    codes::shown_code(queue::peek(image, buffer, s, Some(limit)))
}

// ---- pop

#[unsafe(no_mangle)]
pub extern "C" fn slipq_pop(image: &mut [u8], geometry: &[u32; 4], buffer: &mut [u8]) -> u64
    ensures { ReturnsShown (shape_from geometry.now) (pops buffer.old) image.old image.new buffer.old buffer.new result }
{
    let s = shape_of(geometry);
    codes::shown_code(queue::pop(image, buffer, s, None))
}

#[unsafe(no_mangle)]
pub extern "C" fn slipq_pop_limited(
    image: &mut [u8],
    geometry: &[u32; 4],
    buffer: &mut [u8],
    limit: usize,
) -> u64
    ensures { ReturnsShownWithin limit (shape_from geometry.now) (pops buffer.old) image.old image.new buffer.old buffer.new result }
{
    let s = shape_of(geometry);
    codes::shown_code(queue::pop(image, buffer, s, Some(limit)))
}

// ---- find_max_fit

#[unsafe(no_mangle)]
pub extern "C" fn slipq_find_max_fit(image: &mut [u8], geometry: &[u32; 4]) -> u64
    ensures { Returns (shape_from geometry.now) fits image.old image.new result }
{
    let s = shape_of(geometry);
    codes::fit_code(queue::find_max_fit(image, s, None))
}

#[unsafe(no_mangle)]
pub extern "C" fn slipq_find_max_fit_limited(
    image: &mut [u8],
    geometry: &[u32; 4],
    limit: usize,
) -> u64
    ensures { ReturnsWithin limit (shape_from geometry.now) fits image.old image.new result }
{
    let s = shape_of(geometry);
    codes::fit_code(queue::find_max_fit(image, s, Some(limit)))
}

// ---- space_left

#[unsafe(no_mangle)]
pub extern "C" fn slipq_space_left(image: &mut [u8], geometry: &[u32; 4]) -> u64
    ensures { Returns (shape_from geometry.now) spaces image.old image.new result }
{
    let s = shape_of(geometry);
    codes::space_code(queue::space_left(image, s, None))
}

#[unsafe(no_mangle)]
pub extern "C" fn slipq_space_left_limited(
    image: &mut [u8],
    geometry: &[u32; 4],
    limit: usize,
) -> u64
    ensures { ReturnsWithin limit (shape_from geometry.now) spaces image.old image.new result }
{
    let s = shape_of(geometry);
    codes::space_code(queue::space_left(image, s, Some(limit)))
}

// ---- erase_all

#[unsafe(no_mangle)]
pub extern "C" fn slipq_erase_all(image: &mut [u8], geometry: &[u32; 4]) -> u64
    ensures { Returns (shape_from geometry.now) erases_all image.old image.new result }
{
    let s = shape_of(geometry);
    codes::erased_code(queue::erase_all(image, s, None))
}

#[unsafe(no_mangle)]
pub extern "C" fn slipq_erase_all_limited(
    image: &mut [u8],
    geometry: &[u32; 4],
    limit: usize,
) -> u64
    ensures { ReturnsWithin limit (shape_from geometry.now) erases_all image.old image.new result }
{
    let s = shape_of(geometry);
    codes::erased_code(queue::erase_all(image, s, Some(limit)))
}

// ---- looks at the image

// For a page that is not there, and for an address that its data has not: no row of document 01 has this number. C is told it, and the kind
// of what stands at an address, by numbers alone. Both looks begin with the same match: a function for it would answer one of two numbers, and
// be matched again.
const NOT_THERE: u64 = 255;

#[tactic(auto, using(std::proofs::lemmas::Bool::Decides::nat_tests), unfolding(crate::specs::Sights::state_code))]
#[unsafe(no_mangle)]
pub extern "C" fn slipq_page_state(image: &[u8], geometry: &[u32; 4], p: u32) -> u64
    ensures { result ≡ state_code (shape_from geometry.now) image.now p }
{
    let s = shape_of(geometry);
    match chip::check_geometry(image.len(), s) {
        Ok(g) if p < g.pages => {
            let state = page::get_page_state(image, g, Page(p));
            codes::coded(0, page::rank(state) as usize)
        }
        Ok(_) => NOT_THERE,
        Err(refusal) => codes::refusal_code(refusal),
    }
}

#[tactic(auto, using(std::proofs::lemmas::Bool::Decides::nat_tests), unfolding(crate::specs::Sights::item_code))]
#[unsafe(no_mangle)]
pub extern "C" fn slipq_item(image: &[u8], geometry: &[u32; 4], p: u32, address: u32) -> u64
    ensures { result ≡ item_code (shape_from geometry.now) image.now p address }
{
    let s = shape_of(geometry);
    match chip::check_geometry(image.len(), s) {
        Ok(g) if p < g.pages => item_on_page(image, g, Page(p), Address(address)),
        Ok(_) => NOT_THERE,
        Err(refusal) => codes::refusal_code(refusal),
    }
}

// The end of the data is an address too: a scan that comes to it sees nothing more.
#[tactic(auto, using(std::proofs::lemmas::Bool::Decides::nat_tests), unfolding(crate::specs::Sights::sight))]
fn item_on_page(image: &[u8], g: Geometry, p: Page, at: Address) -> u64
    requires { Within g (length image.now) × (p.0 < g.pages) }
    ensures { result ≡ sight g image.now p.0 at.0 }
{
    let first = chip::page_data_start_address(g, p);
    let end = chip::page_data_end_address(g, p);
    if at < first || end < at {
        return NOT_THERE;
    }
    codes::coded(0, item_at(image, g, at, end))
}

// The kind takes the value's three low bits, and the length those above.
fn item_at(image: &[u8], g: Geometry, at: Address, end: Address) -> usize
    requires { Inside g (length image.now) at.0 end.0 }
    ensures { result ≡ seen at.0 (look g (part at.0 (end.0 - at.0) image.now)) }
{
    match ItemHeader::read_new(image, g, at, end) {
        Ok(None) => 0,
        Err(Corrupted) => 1,
        Ok(Some(header)) => kind_of(image, g, at, header) + 8 * usize::from(header.length),
    }
}

// Told by the checksum over the image itself: read_item would want a buffer for the payload.
fn kind_of(image: &[u8], g: Geometry, at: Address, header: ItemHeader) -> usize
    requires { Room g (length image.now) at.0 header.length }
    ensures { (result ≡ kind (head_at g image.now at.0 header)) × (result ≤ 4) }
{
    if header.crc == 0 {
        return 3;
    }
    let from = ItemHeader::data_address(g, at).0 as usize;
    let to = from + usize::from(header.length);
    if checksum::adapted_crc32(&image[from..to]) == header.crc {
        return 2;
    }
    4
}
