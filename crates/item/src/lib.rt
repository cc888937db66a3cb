// Items on flash: a header and its payload, read and written, and the scan that goes from header to header. As in the Rust's src/item.rs,
// start and end addresses are those of a page's data: page marks stand outside. They are handed on as two, with the fact that the data lies in
// the image (`Inside`), as an item's address goes with its length (`Room`): a struct for the two would not have the image, which the fact is about.
#![tactic(auto)]

ghost use Rattle.std.specs.Prelude.{◌≡◌, ◌+◌, ◌-◌, ◌≤◌, ◌<◌, length, take};
ghost use Rattle.paper.specs.Chip.{header_size, data_end, part, writes};
ghost use Rattle.paper.specs.Slip.{encode, blank, decode};
ghost use Rattle.paper.specs.Scan.{page_walk, any_live};
ghost use Rattle.paper.specs.Push.{item_at};
ghost use Rattle.paper.specs.Refusals.{length_limit};
ghost use Rattle.chip.specs.Within.{Good, Within};
ghost use Rattle.chip.specs.Run.{paid, Did};
ghost use Rattle.item.specs.Places.{after, Inside, Room};
ghost use Rattle.item.specs.Headers.{look_as, HeaderIs, available};
ghost use Rattle.item.specs.Reading.{item_of, ReadIs};
ghost use Rattle.item.specs.Scanning.{walk_from, NextIs, FreeIs, PageFree, SpotIs};

use chip::{Address, Budget, Corrupted, Cut, MAX_WORD_SIZE, Page};
use paper::Geometry;

// `length` is the payload's, without its padding. `crc` is 0 for a popped item, where the Rust has `None`: document 01 asks for the number.
#[derive(Clone, Copy, PartialEq, Eq)]
pub struct ItemHeader {
    pub length: u16,
    pub crc: u32,
}

// An accepted header, the address where it stands, and its payload's length rounded up to a word.
#[derive(Clone, Copy, PartialEq, Eq)]
pub struct Item {
    pub header: ItemHeader,
    pub address: Address,
    pub size: usize,
}

// An item that waits, one that was popped, or a torn one. The payload is in the buffer beside it: an enum can hold no slice.
#[derive(Clone, Copy, PartialEq, Eq)]
pub enum MaybeItem {
    Present(Item),
    Erased(Item),
    Corrupted(Item),
}

// What reading an item fails with: the size that the buffer should have.
#[derive(Clone, Copy, PartialEq, Eq)]
pub struct TooSmall(pub usize);

// What the scan that never stops comes to: the free spot, and how much is left from there to the end of the data.
#[derive(Clone, Copy, PartialEq, Eq)]
pub struct Free {
    pub address: Address,
    pub left: usize,
}

// Eight bytes, rounded up to a word.
const MAX_HEADER_SIZE: usize = MAX_WORD_SIZE;

// ---- bytes

fn all_ff(bytes: &[u8]) -> bool
    ensures { result ≡ blank bytes.now }
{
    bytes.iter().all(|b| *b == 0xff)
}

// What `copy_from_slice` does. Between two slices that are lent that becomes a call of memmove, and of the C library the archive needs memcpy and
// memset alone.
fn copy_bytes(from: &[u8], to: &mut [u8])
    requires { length from.now ≡ length to.old }
    ensures { (to.new ≡ from.now) × (length to.new ≡ length to.old) }
{
    for (i, byte) in from.iter().enumerate() {
        to[i] = *byte;
    }
}

// The address so many bytes further on: the one place that adds to an address. What could pass 2^32 was tested in usize before.
fn further(address: Address, bytes: u32) -> Address
    requires { address.0 + bytes < 4294967296 }
    ensures { result.0 ≡ address.0 + bytes }
{
    Address(address.0 + bytes)
}

// ---- headers

impl ItemHeader {
    // What stands at an address, in data that ends at `end`: nothing more, no header, or a header that the scan accepts.
    pub fn read_new(
        image: &[u8],
        g: Geometry,
        address: Address,
        end: Address,
    ) -> Result<Option<ItemHeader>, Corrupted>
        requires { Inside g (length image.now) address.0 end.0 }
        ensures { HeaderIs g (part address.0 (end.0 - address.0) image.now) result }
    {
        let from = address.0 as usize;
        let to = end.0 as usize;
        ItemHeader::read_first(&image[from..to], g)
    }

    // The header at the front of the bytes that stand up to the end of the data. It is erased when its padding is, too.
    #[tactic(auto, unfolding(paper::specs::Slip::look))]
    fn read_first(bytes: &[u8], g: Geometry) -> Result<Option<ItemHeader>, Corrupted>
        requires { Good g }
        ensures { HeaderIs g bytes.now result }
    {
        let size = chip::header_size(g);
        if bytes.len() < size {
            return Ok(None);
        }
        if all_ff(&bytes[..size]) {
            return Ok(None);
        }
        ItemHeader::decoded(bytes, g)
    }

    // The same where a header is not erased. A length is any number up to 65,535, so sums with it are made in usize. The Rust reads a bad
    // header again: a lent image reads the same twice.
    fn decoded(bytes: &[u8], g: Geometry) -> Result<Option<ItemHeader>, Corrupted>
        requires { Good g × (header_size g ≤ length bytes.now) }
        ensures { look_as g bytes.now result ≡ decode g bytes.now }
    {
        if checksum::crc16(&bytes[4..6]) != u16::from_le_bytes([bytes[6], bytes[7]]) {
            return Err(Corrupted);
        }
        let length = u16::from_le_bytes([bytes[4], bytes[5]]);
        let size = chip::round_up(usize::from(length), g.word as usize);
        if bytes.len() < chip::header_size(g) + size {
            return Err(Corrupted);
        }
        let crc = u32::from_le_bytes([bytes[0], bytes[1], bytes[2], bytes[3]]);
        Ok(Some(ItemHeader { length, crc }))
    }

    fn item(self, g: Geometry, address: Address) -> Item
        requires { Good g }
        ensures { result ≡ item_of g address self }
    {
        Item {
            header: self,
            address,
            size: chip::round_up(usize::from(self.length), g.word as usize),
        }
    }

    // The scan accepted this header, so its item lies in the data, and what the Rust tests once more is required here. The payload of a live
    // item goes to the buffer's front before its checksum is looked at, so that of a torn one does too.
    #[tactic(auto, unfolding(crate::specs::Reading::copies, crate::specs::Reading::read_as, paper::specs::Chip::buffer_after, paper::specs::Scan::live))]
    pub fn read_item(
        self,
        image: &[u8],
        buffer: &mut [u8],
        g: Geometry,
        address: Address,
    ) -> Result<MaybeItem, TooSmall>
        requires { Room g (length image.now) address.0 self.length }
        ensures { ReadIs g image.now address self buffer.old buffer.new result }
    {
        let item = self.item(g, address);
        if self.crc == 0 {
            return Ok(MaybeItem::Erased(item));
        }
        let length = usize::from(self.length);
        let size = item.size;
        if buffer.len() < size {
            return Err(TooSmall(size));
        }
        let start = ItemHeader::data_address(g, address).0 as usize;
        let padded = start + size;
        copy_bytes(&image[start..padded], &mut buffer[..size]);
        let end = start + length;
        if checksum::adapted_crc32(&image[start..end]) == self.crc {
            return Ok(MaybeItem::Present(item));
        }
        Ok(MaybeItem::Corrupted(item))
    }

    // The header's bytes, padded with FF. There is no heap, and an array has no length of its own: as many of its first bytes count as a header
    // takes.
    fn encoded(self, g: Geometry) -> [u8; MAX_HEADER_SIZE]
        requires { Good g }
        ensures { take (header_size g) result ≡ encode g self.crc self.length }
    {
        let length = self.length.to_le_bytes();
        let length_crc = checksum::crc16(&length);
        let mut bytes = [0xffu8; MAX_HEADER_SIZE];
        bytes[..4].copy_from_slice(&self.crc.to_le_bytes());
        bytes[4..6].copy_from_slice(&length);
        bytes[6..8].copy_from_slice(&length_crc.to_le_bytes());
        bytes
    }

    #[tactic(auto, using(laws::proofs::Headers::encode_whole))]
    fn write(
        self,
        image: &mut [u8],
        budget: &mut Budget,
        g: Geometry,
        address: Address,
    ) -> Result<(), Cut>
        requires { Room g (length image.old) address.0 self.length }
        ensures { Did g budget.old (writes g address.0 (encode g self.crc self.length)) image.old image.new (paid result budget.new) }
    {
        let bytes = self.encoded(g);
        let size = chip::header_size(g);
        chip::write(image, budget, g, address, &bytes[..size])
    }

    // A pop stores the header again with CRC 0.
    pub fn erase_data(
        self,
        image: &mut [u8],
        budget: &mut Budget,
        g: Geometry,
        address: Address,
    ) -> Result<(), Cut>
        requires { Room g (length image.old) address.0 self.length }
        ensures { Did g budget.old (writes g address.0 (encode g 0 self.length)) image.old image.new (paid result budget.new) }
    {
        let erased = ItemHeader { crc: 0, ..self };
        erased.write(image, budget, g, address)
    }

    // Where the payload of an item begins ..
    pub fn data_address(g: Geometry, address: Address) -> Address
        requires { Good g × (address.0 + header_size g < 4294967296) }
        ensures { result.0 ≡ address.0 + header_size g }
    {
        // it fits, and so does the size below: no `try_from`, whose error never comes
        further(address, chip::header_size(g) as u32)
    }

    // .. and where the next item does.
    pub fn next_item_address(self, g: Geometry, address: Address) -> Address
        requires { Good g × (after g address.0 self.length < 4294967296) }
        ensures { result.0 ≡ after g address.0 self.length }
    {
        let start = ItemHeader::data_address(g, address);
        let size = chip::round_up(usize::from(self.length), g.word as usize);
        further(start, size as u32)
    }

    // How long a payload may be that goes with its header into `total` bytes, where the header fits.
    #[tactic(auto, unfolding(crate::specs::Headers::available))]
    pub fn available_data_bytes(g: Geometry, total: usize) -> Option<usize>
        requires { Good g }
        ensures { result ≡ available g total }
    {
        chip::round_down(total, g.word as usize).checked_sub(chip::header_size(g))
    }
}

// ---- items

impl Item {
    // The header goes first, so that a scan finds the end of an item whose payload was cut.
    pub fn write_new(
        image: &mut [u8],
        budget: &mut Budget,
        g: Geometry,
        address: Address,
        slip: &[u8],
    ) -> Result<(), Cut>
        requires { Room g (length image.old) address.0 (length slip.now) × (length slip.now ≤ length_limit) }
        ensures { Did g budget.old (item_at g address.0 slip.now) image.old image.new (paid result budget.new) }
    {
        let header = ItemHeader {
            // it fits, by what is required: no `try_from`, whose error never comes
            length: slip.len() as u16,
            crc: checksum::adapted_crc32(slip),
        };
        let start = ItemHeader::data_address(g, address);
        header.write(image, budget, g, address)?;
        chip::write(image, budget, g, start, slip)
    }
}

// ---- the scan, in the two forms that document 01 asks for: the Rust's `traverse` is one, with a callback that says where to stop

// The scan that stops at a live header, torn or not.
#[tactic(auto, using(crate::proofs::Walking::from_bad))]
pub fn next_live(image: &[u8], g: Geometry, start: Address, end: Address) -> Option<Item>
    requires { Inside g (length image.now) start.0 end.0 }
    ensures { NextIs g image.now end.0 start.0 result }
{
    let mut address = start;
    loop {
        match ItemHeader::read_new(image, g, address, end) {
            Ok(None) => return None,
            Err(Corrupted) => address = further(address, g.word),
            Ok(Some(header)) => {
                if header.crc != 0 {
                    return Some(header.item(g, address));
                }
                address = header.next_item_address(g, address);
            }
        }
    }
}

// The scan that never stops, and so ends with the address of the free spot.
#[tactic(auto, using(crate::proofs::Walking::from_stop, crate::proofs::Walking::from_bad))]
pub fn find_free(image: &[u8], g: Geometry, start: Address, end: Address) -> Free
    requires { Inside g (length image.now) start.0 end.0 }
    ensures { FreeIs (walk_from g image.now end.0 start.0) end.0 result }
{
    let mut at = start;
    let free = loop {
        match ItemHeader::read_new(image, g, at, end) {
            Ok(None) => break at,
            Err(Corrupted) => at = further(at, g.word),
            Ok(Some(header)) => at = header.next_item_address(g, at),
        }
    };
    Free {
        address: free,
        left: (end.0 - free.0) as usize,
    }
}

// The free spot, where it serves `data_length` bytes. This and the functions below are methods of the Rust's storage, which holds flash and
// range; here the image is lent and the geometry passed, so there is no such struct.
#[tactic(auto, unfolding(paper::specs::Scan::serves, crate::specs::Headers::available))]
pub fn find_next_free_item_spot(
    image: &[u8],
    g: Geometry,
    start: Address,
    end: Address,
    data_length: usize,
) -> Option<Address>
    requires { Inside g (length image.now) start.0 end.0 }
    ensures { SpotIs g (walk_from g image.now end.0 start.0) end.0 data_length result }
{
    let free = find_free(image, g, start, end);
    let available = ItemHeader::available_data_bytes(g, free.left)?;
    if data_length <= available {
        Some(free.address)
    } else {
        None
    }
}

// ---- the scan of a page. As in the Rust, each function takes the two addresses of the page's data first.

#[tactic(auto, using(crate::proofs::PageScan::page_inside, crate::proofs::PageScan::page_walk_lem, crate::proofs::Live::any_is))]
pub fn page_contains_live_data(image: &[u8], g: Geometry, page: Page) -> bool
    requires { Within g (length image.now) × (page.0 < g.pages) }
    ensures { result ≡ any_live (page_walk g image.now page.0).heads }
{
    let start = chip::page_data_start_address(g, page);
    let end = chip::page_data_end_address(g, page);
    next_live(image, g, start, end).is_some()
}

#[tactic(auto, unfolding(paper::specs::Scan::free_spot), using(crate::proofs::PageScan::page_inside, crate::proofs::PageScan::page_walk_lem))]
pub fn find_free_in_page(image: &[u8], g: Geometry, page: Page) -> Free
    requires { Within g (length image.now) × (page.0 < g.pages) }
    ensures { PageFree g image.now page.0 result }
{
    let start = chip::page_data_start_address(g, page);
    let end = chip::page_data_end_address(g, page);
    find_free(image, g, start, end)
}

#[tactic(auto, using(crate::proofs::PageScan::page_inside, crate::proofs::PageScan::page_spot))]
pub fn find_spot_in_page(
    image: &[u8],
    g: Geometry,
    page: Page,
    data_length: usize,
) -> Option<Address>
    requires { Within g (length image.now) × (page.0 < g.pages) }
    ensures { SpotIs g (page_walk g image.now page.0) (data_end g page.0) data_length result }
{
    let start = chip::page_data_start_address(g, page);
    let end = chip::page_data_end_address(g, page);
    find_next_free_item_spot(image, g, start, end, data_length)
}
