//! The run of a bridge: the turns of its ports, and the frames that arrive.
ghost use Rattle.std.specs.Prelude.{◌≡◌, ℕ, ◌<◌, ◌≤◌, length, OnOk, Some, slice_get};
ghost use Rattle.std.specs.List.{flat_map};
ghost use Rattle.split_ring.specs.declared.sizes.TheConstants.{SHORTEST_FRAME};
ghost use Rattle.link_endpoint.specs.Engine.{delivered};
ghost use Rattle.frame_bridge.specs.declared.ports.Port.{Port as HeldPort};
ghost use Rattle.frame_bridge.specs.Forwarding.{first_ports};
ghost use Rattle.frame_bridge.specs.Run.{World, turn, turns_of, schedule, ran, world_after};
ghost use Rattle.frame_bridge.specs.Refinement.{RunRefines, IsUnderWay, IsUnderWayAt, LeadsTo, with_arrival};

use crate::learning::Bridge;
use crate::limits::TURNS;
use crate::output::{Line, put};
use crate::ports::Port;
use ivs_base::{Frame, NoMemory};
use std::alloc::Global;

/// A run so far: the bridge, its ports, and the lines of what arrived.
#[derive(Debug, Drop)]
pub struct Run {
    pub bridge: Bridge,
    pub ports: Vec<Port>,
    pub text: Vec<u8>,
}

impl Run {
    /// Takes a turn of the station of this port.
    fn station_turn(&mut self, port: usize) -> Result<(), NoMemory>
        requires { IsUnderWayAt port self.old }
        ensures { LeadsTo result self.old self.new (λ ports w. world_after w (turn port 0)) }
    {
        let port = &mut self.ports[port];
        port.station_turn()
    }

    /// Handles the arrival of the last frame that the bridge's end of port `from` delivered. Writes
    /// the frame's line and copies the frame to each port to which it is forwarded.
    fn arrive(&mut self, alloc: Global, from: usize) -> Result<(), NoMemory>
        requires refines { (w : World) × (ports : ℕ) × RunRefines ports w self.old × (from < ports) × (ports ≤ 8) }
        requires frame { (port : HeldPort) → slice_get self.old.ports.items from ≡ Some port →
            SHORTEST_FRAME ≤ length (delivered port.own.end) }
        ensures { (w : World) (ports : ℕ) (port : HeldPort) → RunRefines ports w self.old →
            slice_get self.old.ports.items from ≡ Some port →
            OnOk result (RunRefines ports (with_arrival w from (delivered port.own.end)) self.new) }
    {
        let frame = self.ports[from].own.end.delivered();
        put(&mut self.text, Line::Arrive, &[from as u64], frame)?;
        let to = self.bridge.arrive(from as u32, frame)?;
        for port in 0..self.ports.len() {
            if to.as_slice().contains(&(port as u32)) {
                let copy = Frame::of(alloc, self.ports[from].own.end.delivered())?;
                self.ports[port].take_copy(copy)?;
            }
        }
        Ok(())
    }

    /// Takes a turn of the bridge's end of this port.
    fn own_turn(&mut self, alloc: Global, port: usize) -> Result<(), NoMemory>
        requires { IsUnderWayAt port self.old }
        ensures { LeadsTo result self.old self.new (λ ports w. world_after w (turn port 1)) }
    {
        let here = &mut self.ports[port];
        if here.own_turn() {
            self.arrive(alloc, port)?;
        }
        Ok(())
    }

    /// Takes the turns of both ends of a port in a round.
    fn port_turns(&mut self, alloc: Global, port: usize) -> Result<(), NoMemory>
        requires { IsUnderWayAt port self.old }
        ensures { LeadsTo result self.old self.new (λ ports w. ran w (turns_of port)) }
    {
        for _station in 0..TURNS {
            self.station_turn(port)?;
        }
        for _own in 0..TURNS {
            self.own_turn(alloc, port)?;
        }
        Ok(())
    }

    /// Plays a round of all ports.
    fn round(&mut self, alloc: Global) -> Result<(), NoMemory>
        requires { IsUnderWay self.old }
        ensures { LeadsTo result self.old self.new (λ ports w. ran w (flat_map turns_of (first_ports ports))) }
    {
        for port in 0..self.ports.len() {
            self.port_turns(alloc, port)?;
        }
        Ok(())
    }

    /// Plays `rounds` rounds.
    pub fn rounds(&mut self, alloc: Global, rounds: u32) -> Result<(), NoMemory>
        requires { IsUnderWay self.old }
        ensures { LeadsTo result self.old self.new (λ ports w. ran w (schedule rounds ports)) }
    {
        for _round in 0..rounds {
            self.round(alloc)?;
        }
        Ok(())
    }
}
