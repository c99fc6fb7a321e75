//! The addresses that a bridge learns from arrivals, and the ports to which it forwards frames.
ghost use Rattle.std.specs.Prelude.{◌≡◌, ℕ, List, ◌+◌, ◌<◌, ◌≤◌, ◌++◌, ◌∷◌, [], length, take, drop, filter, IfOk, OnErr, OnOk};
ghost use Rattle.split_ring.specs.declared.sizes.TheConstants.{SHORTEST_FRAME};
ghost use Rattle.frame_bridge.specs.Forwarding.{Arrival, is_group, source, destination, goes_to, port_of, known_count, ports_for, is_forwarded, first_ports};
ghost use Rattle.frame_bridge.specs.BridgeView.{RefinesArrivals, arrival};

use arrayvec::ArrayVec;
use ivs_base::NoMemory;
use std::alloc::Global;
use std::collections::BTreeMap;
use std::marker::Model;

/// The length of an address, in bytes.
const ADDRESS: usize = 6;

/// The most addresses that a bridge knows.
const MOST: usize = 1024;

/// A bridge: the number of its ports, and the port of each address that it knows, at most 1,024.
#[derive(Debug, Drop)]
pub struct Bridge {
    ports: u32,
    table: BTreeMap<[u8; ADDRESS], u32>,
}

impl Model for Bridge {
    ghost use Rattle.frame_bridge.specs.BridgeView.{View};
    ghost use Rattle.frame_bridge.specs.Representation.{bridge_view_of, IsWellFormed};

    ghost Value = { View };

    ghost view = { bridge_view_of };

    ghost invariant = { IsWellFormed };
}

/// Whether the address is a group address: bit 0 of its first byte is set.
fn is_group(address: &[u8; ADDRESS]) -> bool
    ensures { result ≡ is_group address.now }
{
    address[0] % 2 == 1
}

/// Returns the address at byte offset `at` of a frame.
fn address_at(frame: &[u8], at: usize) -> [u8; ADDRESS]
    requires { at + 6 ≤ length frame.now }
    ensures { result ≡ take 6 (drop at frame.now) }
{
    let mut address = [0; ADDRESS];
    address.copy_from_slice(&frame[at..at + ADDRESS]);
    address
}

impl Bridge {
    /// Returns a bridge of `ports` ports that knows no address.
    pub fn new(alloc: Global, ports: u32) -> Result<Bridge, NoMemory>
        requires { (2 ≤ ports) × (ports ≤ 8) }
        ensures ports { IfOk result (λ bridge. bridge.ports ≡ ports) }
        ensures refines { IfOk result (λ bridge. RefinesArrivals bridge []) }
    {
        Ok(Bridge {
            ports,
            table: BTreeMap::new(alloc),
        })
    }

    /// Learns the source of a frame that arrives at `port`, and returns the ports to which the
    /// frame goes, ascending.
    ///
    /// A frame goes to the port of its destination, or to no port if it arrived at that port. If
    /// the destination is a group address or isn't known, the frame goes to all ports but the one
    /// at which it arrived. An unknown source is learned if it is no group address and fewer than
    /// 1,024 addresses are known. A known source moves to this port. After `NoMemory` the bridge is
    /// unchanged.
    // claim ports, refines with Bridge::new.ports, Bridge::new.refines: A bridge learns the source
    //    of a frame, then answers the ports to which it goes, by the list of the arrivals so far.
    // claim unchanged, same: After NoMemory the bridge is unchanged, and its number of ports never
    //    changes.
    pub fn arrive(&mut self, port: u32, frame: &[u8]) -> Result<ArrayVec<u32, 8>, NoMemory>
        requires port { port < self.old.ports }
        requires frame { SHORTEST_FRAME ≤ length frame.now }
        ensures ports { (earlier : List Arrival) → RefinesArrivals self.old earlier →
            IfOk result (λ ports. ports.items ≡ ports_for self.old.ports earlier (arrival port frame.now)) }
        ensures refines { (earlier : List Arrival) → RefinesArrivals self.old earlier →
            OnOk result (RefinesArrivals self.new (earlier ++ arrival port frame.now ∷ [])) }
        ensures same { self.new.ports ≡ self.old.ports }
        ensures unchanged { OnErr result (self.new ≡ self.old) }
    {
        self.learn(port, &address_at(frame, ADDRESS))?;
        Ok(self.forwards(port, &address_at(frame, 0)))
    }

    /// Returns the number of addresses known.
    // claim count, most: A bridge knows at most 1,024 addresses.
    pub fn known(&self) -> u32
        ensures count { (arrivals : List Arrival) → RefinesArrivals self.now arrivals → result ≡ known_count arrivals }
        ensures most { result ≤ 1024 }
    {
        self.table.len() as u32
    }

    /// Returns the port of an address, or `None` if the address isn't known.
    // claim: The port of an address is that of its latest arrival, if it was learned.
    pub fn port_of(&self, address: &[u8; 6]) -> Option<u32>
        ensures { (arrivals : List Arrival) → RefinesArrivals self.now arrivals →
            result ≡ port_of arrivals address.now }
    {
        self.table.get(address).copied()
    }
}

/// Whether a frame from port `from` goes to port `to`. `known` is the port of its destination, or
/// `None` if that isn't known.
fn goes_to(known: Option<u32>, from: u32, to: u32) -> bool
    ensures { result ≡ goes_to known from to }
{
    to != from && known.is_none_or(|known| to == known)
}

/// Returns those of `count` ports to which such a frame goes.
fn ports_of(count: u32, known: Option<u32>, from: u32) -> ArrayVec<u32, 8>
    requires { count ≤ 8 }
    ensures { result.items ≡ filter (goes_to known from) (first_ports count) }
{
    let mut ports = ArrayVec::new();
    for to in 0..count {
        if goes_to(known, from, to) {
            ports.push(to);
        }
    }
    ports
}

/// Learning and forwarding, the two parts of an arrival.
impl Bridge {
    /// Learns that an address is at this port, if it may be learned.
    fn learn(&mut self, port: u32, address: &[u8; 6]) -> Result<(), NoMemory>
        ensures refines { (earlier : List Arrival) (frame : List ℕ) → RefinesArrivals self.old earlier →
            source frame ≡ address.now →
            OnOk result (RefinesArrivals self.new (earlier ++ arrival port frame ∷ [])) }
        ensures same { self.new.ports ≡ self.old.ports }
        ensures unchanged { OnErr result (self.new ≡ self.old) }
    {
        if is_group(address) {
            return Ok(());
        }
        if self.table.len() < MOST || self.table.contains_key(address) {
            self.table.insert(*address, port)?;
        }
        Ok(())
    }

    /// Returns the ports to which a frame from this port to this address goes.
    fn forwards(&self, port: u32, address: &[u8; 6]) -> ArrayVec<u32, 8>
        ensures { (arrivals : List Arrival) (frame : List ℕ) → RefinesArrivals self.now arrivals →
            destination frame ≡ address.now →
            result.items ≡ filter (is_forwarded arrivals (arrival port frame)) (first_ports self.now.ports) }
    {
        let known = if is_group(address) {
            None
        } else {
            self.port_of(address)
        };
        ports_of(self.ports, known, port)
    }
}
