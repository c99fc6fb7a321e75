//! The parts of a listing. Each function appends the lines of one part.
ghost use Rattle.std.specs.Prelude.{◌≡◌, ◌+◌, ◌-◌, ◌*◌, ◌≤◌, [], ◌∷◌, ◌++◌, length, Some, None, IfSome, MatchOption, IfOk, OnOk, string_bytes};
ghost use Rattle.section_map.specs.declared.limits.TheConstants.{LARGEST_REGION};
ghost use Rattle.split_ring.specs.Layout.{queue_size, size_of, rings_len};
ghost use Rattle.section_dump.specs.Image.{IsImage, words_from, region_words, shape_in, queue_in, peers_in, table_in, common_in, out_in};
ghost use Rattle.section_dump.specs.Lines.{Puts, line_of, text_of, Peers, Table, Common, Out, QueueSizes, End};
ghost use Rattle.section_dump.specs.Listing.{IsItemLine, AreItemsOf, IsSection, AreTwoSections, state_lines, IsBody, IsListing};

use crate::images::{HEADER_LEN, Header, region_word};
use crate::lines;
use crate::rings::Ring;
use ivs_base::plus;
use section_map::Geometry;
use split_ring::{LEAST_MTU, Queue, queue_size_is_greatest};
use std::alloc::{AllocError, Global};

/// Appends the line of a position: the frame that is spelled there, or the first field that a poll
/// would refuse.
pub fn put_item(
    alloc: Global,
    text: &mut String,
    ring: &Ring<'_>,
    position: u16,
) -> Result<(), AllocError>
    ensures { OnOk result (Puts (IsItemLine ring.now.queue (words_from ring.now.image.now ring.now.first) position)
        (string_bytes text.old) (string_bytes text.new)) }
{
    match ring.item(position) {
        Ok(item) => {
            let frame = ring.frame(item.address, item.length);
            lines::put_frame(alloc, text, position, item.entry, item.address, frame)
        }
        Err(refused) => lines::put_bad(text, position, refused.field, refused.value),
    }
}

/// Appends the lines of `count` positions from this one on.
fn put_items(
    alloc: Global,
    text: &mut String,
    ring: &Ring<'_>,
    first: u16,
    count: u16,
) -> Result<(), AllocError>
    ensures { OnOk result (Puts (AreItemsOf ring.now.queue (words_from ring.now.image.now ring.now.first) first count)
        (string_bytes text.old) (string_bytes text.new)) }
{
    for step in 0..count {
        put_item(alloc, text, ring, plus(first, step))?;
    }
    Ok(())
}

/// Appends the section of a peer: its indices, and the item of each position that the other peer
/// hasn't returned.
pub fn put_section(
    alloc: Global,
    text: &mut String,
    peer: u32,
    ring: &Ring<'_>,
    other: &Ring<'_>,
) -> Result<(), AllocError>
    requires { other.now.queue ≡ ring.now.queue }
    ensures { OnOk result (Puts (IsSection ring.now.queue (words_from ring.now.image.now ring.now.first)
        (words_from other.now.image.now other.now.first) peer) (string_bytes text.old) (string_bytes text.new)) }
{
    let available = ring.available_index();
    let used = other.used_index();
    lines::put_section(text, peer, available, used)?;
    match ring.distance(used, available) {
        Ok(count) => put_items(alloc, text, ring, used, count),
        Err(refused) => lines::put_bad(text, available, refused.field, refused.value),
    }
}

/// Appends the sizes of the header.
fn put_head(text: &mut String, header: &Header) -> Result<(), AllocError>
    ensures { OnOk result (string_bytes text.new ≡ string_bytes text.old ++ text_of (Peers header.now.peers
        ∷ Table header.now.table ∷ Common header.now.common ∷ Out header.now.out ∷ [])) }
{
    lines::put_peers(text, header.peers)?;
    lines::put_table(text, header.table)?;
    lines::put_common(text, header.common)?;
    lines::put_out(text, header.out)
}

/// Returns the queue in sections of `out` bytes, if a queue size fits. No line depends on the MTU.
fn queue_of(out: u64) -> Option<Queue>
    requires { out ≤ LARGEST_REGION }
    ensures size { MatchOption result (queue_size out ≡ None) (λ q. queue_size out ≡ Some (size_of q)) }
    ensures queue { IfSome result (λ q. q ≡ record { version = 1; out = out; mtu = LEAST_MTU }) }
{
    queue_size_is_greatest();
    Queue::of(out, LEAST_MTU).ok()
}

/// Appends the line of the queue.
fn put_queue(text: &mut String, queue: &Queue) -> Result<(), AllocError>
    ensures { OnOk result (string_bytes text.new ≡ string_bytes text.old
        ++ line_of (QueueSizes (size_of queue.now) (rings_len (size_of queue.now)) (queue.now.out - rings_len (size_of queue.now)))) }
{
    let ring = queue.payload();
    lines::put_queue(text, queue.size(), ring, queue.out() - ring)
}

/// Appends the states of the peers below `peers`.
fn put_states(text: &mut String, image: &[u8], peers: u32) -> Result<(), AllocError>
    requires { HEADER_LEN + 4 * peers ≤ length image.now }
    ensures { OnOk result (string_bytes text.new ≡
        string_bytes text.old ++ text_of (state_lines (region_words image.now) peers)) }
{
    for peer in 0..peers {
        lines::put_state(text, peer, region_word(image, peer))?;
    }
    Ok(())
}

/// Appends the sections of peers 0 and 1.
fn put_sections(
    alloc: Global,
    text: &mut String,
    image: &[u8],
    geometry: &Geometry,
    queue: Queue,
) -> Result<(), AllocError>
    requires image { IsImage image.now }
    requires geometry { geometry.now ≡ shape_in image.now }
    requires queue { queue ≡ queue_in image.now }
    ensures { OnOk result (Puts (AreTwoSections image.now) (string_bytes text.old) (string_bytes text.new)) }
{
    let first = Ring::new(queue, image, 8 + geometry.section_start(0) as usize);
    let second = Ring::new(queue, image, 8 + geometry.section_start(1) as usize);
    put_section(alloc, text, 0, &first, &second)?;
    put_section(alloc, text, 1, &second, &first)
}

/// Appends the queue, the states and the sections.
fn put_body(
    alloc: Global,
    text: &mut String,
    image: &[u8],
    geometry: &Geometry,
    out: u64,
) -> Result<(), AllocError>
    requires image { IsImage image.now }
    requires geometry { geometry.now ≡ shape_in image.now }
    requires out { out ≡ out_in image.now }
    ensures { OnOk result (Puts (IsBody image.now) (string_bytes text.old) (string_bytes text.new)) }
{
    match queue_of(out) {
        None => {
            lines::put_no_queue(text)?;
            put_states(text, image, geometry.peers())
        }
        Some(queue) => {
            put_queue(text, &queue)?;
            put_states(text, image, geometry.peers())?;
            put_sections(alloc, text, image, geometry, queue)
        }
    }
}

/// Returns the listing of an image with this header and this geometry.
pub fn list(
    alloc: Global,
    image: &[u8],
    header: &Header,
    geometry: &Geometry,
) -> Result<String, AllocError>
    requires image { IsImage image.now }
    requires header { header.now ≡ record {
      peers = peers_in image.now;
      table = table_in image.now;
      common = common_in image.now;
      out = out_in image.now;
    } }
    requires geometry { geometry.now ≡ shape_in image.now }
    ensures { IfOk result (λ text. IsListing image.now (string_bytes text)) }
{
    let mut text = String::new(alloc);
    put_head(&mut text, header)?;
    put_body(alloc, &mut text, image, geometry, header.out)?;
    lines::put_end(&mut text)?;
    Ok(text)
}
