//! A port of a bridge: the link between its station and the bridge's end, and its output.
ghost use Rattle.std.specs.Prelude.{◌≡◌, ℕ, List, ◌++◌, ◌∷◌, [], All, IfOk, OnOk};
ghost use Rattle.link_invariant.specs.LinkConfig.{IsOffered};
ghost use Rattle.link_endpoint.specs.Engine.{delivered};
ghost use Rattle.frame_bridge.specs.Links as links;
ghost use Rattle.frame_bridge.specs.Links.{link_config, turned, observed_by};
ghost use Rattle.frame_bridge.specs.Refinement.{shape, PortRefines, start_link, with_copy, delivered_if};

use crate::auto_ends::{initial_end, take_turn};
use crate::output::{Line, put};
use ivs_base::{Frame, NoMemory};
use link_endpoint::AutoEndpoint;
use section_map::{Geometry, Region};
use split_ring::Queue;
use std::alloc::Global;

/// The region of a port with its two ends, and the lines of what its station delivered. The numbers
/// of frames delivered by the station and forwarded to the port.
#[derive(Debug, Drop)]
pub struct Port {
    pub region: Region,
    pub station: AutoEndpoint,
    pub own: AutoEndpoint,
    pub outs: Vec<u8>,
    pub delivered: u64,
    pub forwarded: u64,
}

impl Port {
    /// Returns an initial port, whose station sends nothing.
    pub fn new(alloc: Global, geometry: &Geometry, queue: &Queue) -> Result<Port, NoMemory>
        requires geometry { geometry.now ≡ shape }
        requires queue { queue.now ≡ link_config.sizes }
        ensures { IfOk result (λ port. PortRefines (start_link []) [] port) }
    {
        Ok(Port {
            region: Region::new(alloc, geometry)?,
            station: initial_end(alloc, 0, geometry, queue)?,
            own: initial_end(alloc, 1, geometry, queue)?,
            outs: Vec::new(alloc),
            delivered: 0,
            forwarded: 0,
        })
    }

    /// Appends a frame to those that the station sends, before its first turn.
    pub fn send(&mut self, frame: Frame) -> Result<(), NoMemory>
        ensures { (frames : List (List ℕ)) → PortRefines (start_link frames) [] self.old →
            OnOk result (PortRefines (start_link (frames ++ frame ∷ [])) [] self.new) }
    {
        self.station.auto.add(frame)
    }

    /// Takes a turn of the station.
    pub fn station_turn(&mut self) -> Result<(), NoMemory>
        requires { (link : links.Link) × (forwarded : List (List ℕ)) × PortRefines link forwarded self.old ×
            All (IsOffered link_config) (link.auto_ends 0).frames }
        ensures { (link : links.Link) (forwarded : List (List ℕ)) → PortRefines link forwarded self.old →
            OnOk result (PortRefines (turned 0 link) forwarded self.new) }
    {
        if take_turn(&mut self.station, &mut self.region, 0) {
            put(&mut self.outs, Line::Out, &[], self.station.end.delivered())?;
            self.delivered = self.delivered.saturating_add(1);
        }
        Ok(())
    }

    /// Takes a turn of the bridge's end. Returns whether a frame arrives.
    pub fn own_turn(&mut self) -> bool
        requires { (link : links.Link) × (forwarded : List (List ℕ)) × PortRefines link forwarded self.old ×
            All (IsOffered link_config) (link.auto_ends 1).frames }
        ensures refines { (link : links.Link) (forwarded : List (List ℕ)) → PortRefines link forwarded self.old →
            PortRefines (turned 1 link) forwarded self.new }
        ensures recorded { (link : links.Link) (forwarded : List (List ℕ)) → PortRefines link forwarded self.old →
            observed_by 1 link ≡ delivered_if result (delivered self.new.own.end) }
    {
        take_turn(&mut self.own, &mut self.region, 1)
    }

    /// Appends a frame that goes to this port to the frames of the bridge's end.
    pub fn take_copy(&mut self, frame: Frame) -> Result<(), NoMemory>
        ensures { OnOk result (self.new ≡ with_copy frame self.old) }
    {
        self.own.auto.add(frame)?;
        self.forwarded = self.forwarded.saturating_add(1);
        Ok(())
    }
}
