//! One end of a port's link over the words of its region. It chooses its own calls.
ghost use Rattle.std.specs.Prelude.{◌≡◌, ℕ, [], ◌<◌, All, IfOk};
ghost use Rattle.std.specs.List.{list_any};
ghost use Rattle.call_grammar.specs.Permitted.{IsPermittedAccess};
ghost use Rattle.link_invariant.specs.LinkConfig.{config_of, IsOffered};
ghost use Rattle.link_endpoint.specs.Engine.{delivered};
ghost use Rattle.frame_bridge.specs.Links as links;
ghost use Rattle.frame_bridge.specs.Links.{link_config, opened, turned, observed_by, value_in, words_after, starting};
ghost use Rattle.frame_bridge.specs.Refinement.{shape, AutoEndRefines, RegionRefines, AtEachLink, is_delivery, delivered_if};

use ivs_base::NoMemory;
use link_endpoint::{Auto, AutoEndpoint, Endpoint};
use section_map::{Geometry, Region};
use split_ring::Queue;
use split_ring::steps::{Access, Note};
use std::alloc::Global;

/// The number of deliveries that each end expects. More can't happen, so no end is ever finished.
const EXPECTED: u64 = u64::MAX;

/// The vector of an end's doorbells.
const TRAFFIC: u32 = 1;

/// Performs an access. Returns the value of a read, or 0.
fn perform(region: &mut Region, me: u32, access: Access) -> u32
    requires me { me < 2 }
    requires shape { region.old.shape ≡ shape }
    requires reach { IsPermittedAccess (config_of link_config me) access }
    ensures value { (memory : ℕ → ℕ) → RegionRefines memory region.old → result ≡ value_in memory access }
    ensures words { (memory : ℕ → ℕ) → RegionRefines memory region.old →
        RegionRefines (words_after me memory access) region.new }
    ensures shape { region.new.shape ≡ shape }
{
    match access {
        Access::Read(word) => match region.read(me, word) {
            Ok(value) => value,
            Err(_) => unreachable!(),
        },
        Access::Write(word, value) => match region.write(me, word, value) {
            Ok(()) => 0,
            Err(_) => unreachable!(),
        },
        Access::State(state) => {
            region.set_state(me, state);
            0
        }
        Access::Ring { .. } | Access::Nothing => 0,
    }
}

/// Whether the notes deliver a frame.
fn delivers(notes: &[Note]) -> bool
    ensures { result ≡ list_any is_delivery notes.now }
{
    notes.iter().any(|note| matches!(note, Note::Deliver))
}

/// Returns the initial end `me` of a link of this geometry and queue, without frames to send.
pub fn initial_end(
    alloc: Global,
    me: u32,
    geometry: &Geometry,
    queue: &Queue,
) -> Result<AutoEndpoint, NoMemory>
    requires me { me < 2 }
    requires geometry { geometry.now ≡ shape }
    requires queue { queue.now ≡ link_config.sizes }
    ensures { IfOk result (λ auto_end. AutoEndRefines me (starting []) auto_end) }
{
    Ok(AutoEndpoint {
        end: Endpoint::new(alloc, me, geometry, queue, TRAFFIC)?,
        auto: Auto::new(alloc, EXPECTED),
    })
}

/// Opens the next call, if no call is open.
fn open_next(auto_end: &mut AutoEndpoint, me: u32)
    requires refines { (is : links.AutoEnd) × AutoEndRefines me is auto_end.old ×
        All (IsOffered link_config) is.frames }
    ensures { (is : links.AutoEnd) → AutoEndRefines me is auto_end.old →
        AutoEndRefines me (opened (config_of link_config me) is) auto_end.new }
{
    let choice = auto_end.choose();
    auto_end.open(choice);
}

/// Takes a turn: the next step of the open call, or the first step of the call that the end
/// chooses. Returns whether the step delivers a frame.
pub fn take_turn(auto_end: &mut AutoEndpoint, region: &mut Region, me: u32) -> bool
    requires me { me < 2 }
    requires shape { region.old.shape ≡ shape }
    requires refines { (is : links.AutoEnd) × AutoEndRefines me is auto_end.old ×
        All (IsOffered link_config) is.frames }
    ensures auto_end { AtEachLink me auto_end.old region.old (λ link.
        AutoEndRefines me ((turned me link).auto_ends me) auto_end.new) }
    ensures words { AtEachLink me auto_end.old region.old (λ link. RegionRefines (turned me link).memory region.new) }
    ensures recorded { AtEachLink me auto_end.old region.old (λ link.
        observed_by me link ≡ delivered_if result (delivered auto_end.new.end)) }
    ensures shape { region.new.shape ≡ shape }
{
    open_next(auto_end, me);
    if !auto_end.end.busy() {
        return false;
    }
    let access = auto_end.end.next();
    let value = perform(region, me, access);
    let notes = auto_end.took(value);
    delivers(notes.as_slice())
}
