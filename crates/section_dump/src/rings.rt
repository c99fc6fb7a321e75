//! The rings of a section, as a receiver reads them.
ghost use Rattle.std.specs.Prelude.{◌≡◌, ◌+◌, ◌*◌, ◌<◌, ◌≤◌, length, IfOk, IfErr};
ghost use Rattle.split_ring.specs.Layout.{size_of};
ghost use Rattle.ivs_base.specs.Numbers.{distance};
ghost use Rattle.split_ring.specs.Ranges.{IsAvailIndex};
ghost use Rattle.split_ring.specs.Spelling.{avail_index, used_index, entry_at, address_at, length_at, bytes_from};
ghost use Rattle.section_dump.specs.Image.{words_from};
ghost use Rattle.section_dump.specs.Listing.{IsAccepted, IsFirstRefused};

use byteorder::{ByteOrder, LittleEndian};
use split_ring::{FieldName, Queue, Refused, desc_flags, high_half, low_half};

/// A section of an image.
#[derive(Clone, Copy, Debug)]
pub struct Ring<'a> {
    queue: Queue,
    image: &'a [u8],
    first: usize,
    ghost inside: { 4 * first + queue.out ≤ length image.now },
}

/// An item that passed the checks of a poll: the descriptor, and the place of its frame.
#[derive(Clone, Copy, Debug)]
pub struct Item {
    pub entry: u32,
    pub address: u32,
    pub length: u32,
}

impl<'a> Ring<'a> {
    /// Returns the section that begins at word `first` of the image.
    pub fn new(queue: Queue, image: &'a [u8], first: usize) -> Ring<'a>
        requires { 4 * first + queue.out ≤ length image.now }
        ensures queue { result.queue ≡ queue }
        ensures image { result.image.now ≡ image.entry.now }
        ensures first { result.first ≡ first }
    {
        Ring {
            queue,
            image,
            first,
        }
    }

    /// Returns word `i` of the section.
    fn word(&self, i: u32) -> u32
        requires { 4 * i + 4 ≤ self.now.queue.out }
        ensures { result ≡ words_from self.now.image.now self.now.first i }
    {
        let place = 4 * (self.first + i as usize);
        LittleEndian::read_u32(&self.image[place..])
    }

    /// Returns the available index: the number of frames that the section's peer has published, mod
    /// 65,536.
    pub fn available_index(&self) -> u16
        ensures { result ≡ avail_index self.now.queue (words_from self.now.image.now self.now.first) }
    {
        high_half(self.word(self.queue.avail_word()))
    }

    /// Returns the used index: the number of the other's frames that the section's peer has
    /// returned, mod 65,536.
    pub fn used_index(&self) -> u16
        ensures { result ≡ used_index self.now.queue (words_from self.now.image.now self.now.first) }
    {
        high_half(self.word(self.queue.used_word()))
    }

    /// Returns the available entry of a position.
    fn entry(&self, position: u16) -> u16
        ensures { result ≡ entry_at self.now.queue (words_from self.now.image.now self.now.first) position }
    {
        let word = self.word(self.queue.entry_word(u32::from(position)));
        if u32::from(position) % self.queue.size() % 2 == 0 {
            low_half(word)
        } else {
            high_half(word)
        }
    }

    /// Returns the address of descriptor `i`.
    fn address(&self, i: u32) -> u64
        requires { i < size_of self.now.queue }
        ensures { result ≡ address_at self.now.queue (words_from self.now.image.now self.now.first) i }
    {
        let first = self.queue.descriptor(i);
        u64::from(self.word(first)) + (u64::from(self.word(first + 1)) << 32)
    }

    /// Returns the length of descriptor `i`.
    fn length(&self, i: u32) -> u32
        requires { i < size_of self.now.queue }
        ensures { result ≡ length_at self.now.queue (words_from self.now.image.now self.now.first) i }
    {
        self.word(self.queue.descriptor(i) + 2)
    }

    /// Returns the number of items between the other peer's used index and the available index.
    pub fn distance(&self, used: u16, available: u16) -> Result<u16, Refused>
        ensures inside { IfOk result (λ n. IsAvailIndex self.now.queue used available × (n ≡ distance used available)) }
        ensures outside { IfErr result (λ r. (¬ IsAvailIndex self.now.queue used available)
            × (r ≡ record { field = FieldName.AvailIndex; value = available })) }
    {
        let distance = self.queue.check_avail(used, available)?;
        Ok(distance as u16)
    }

    /// Returns the item at a position, by the checks of a poll in their order.
    pub fn item(&self, position: u16) -> Result<Item, Refused>
        ensures accepted { IfOk result (λ item. IsAccepted self.now.queue (words_from self.now.image.now self.now.first)
            position item.entry item.address item.length) }
        ensures refused { IfErr result
            (λ r. IsFirstRefused self.now.queue (words_from self.now.image.now self.now.first)
            position r.field r.value) }
    {
        let entry = self.queue.check_entry(self.entry(position))?;
        let address = self.queue.check_address(self.address(entry))?;
        let length = self.queue.check_length(address, self.length(entry))?;
        let flags = desc_flags(self.word(self.queue.descriptor(entry) + 3));
        self.queue.check_flags(flags)?;
        Ok(Item {
            entry,
            address,
            length,
        })
    }

    /// Returns `length` bytes of the section from `address` on.
    pub fn frame(&self, address: u32, length: u32) -> &'a [u8]
        requires { address + length ≤ self.now.queue.out }
        ensures { result.now ≡ bytes_from (words_from self.now.image.now self.now.first) address length }
    {
        bytes_from(self.image, self.first, address as usize, length as usize)
    }
}

/// Returns `count` bytes from byte offset `place` on, counted from word `first` of the image.
fn bytes_from(image: &[u8], first: usize, place: usize, count: usize) -> &[u8]
    requires { 4 * first + place + count ≤ length image.now }
    ensures { result.now ≡ bytes_from (words_from image.entry.now first) place count }
{
    let start = 4 * first + place;
    &image[start..start + count]
}
