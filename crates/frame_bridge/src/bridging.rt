//! The run of a text, from its bytes to its output.
ghost use Rattle.std.specs.Prelude.{◌≡◌, ℕ, List, ◌++◌, [], ◌-◌, ◌^◌, ◌<◌, ◌≤◌, length, IfOk, IfErr, OnOk, Some, slice_get};
ghost use Rattle.std.specs.List.{flat_map};
ghost use Rattle.line_format.specs.Answers.{Refuses};
ghost use Rattle.line_format.specs.Rows.{text_of};
ghost use Rattle.frame_bridge.specs.declared.faults.BridgeFault.TheVariants.{NoMemory as OutOfMemory};
ghost use Rattle.frame_bridge.specs.declared.scripts.Sent.{Sent as SentFrame};
ghost use Rattle.frame_bridge.specs.Judge.{answer, sense};
ghost use Rattle.frame_bridge.specs.Spelling as text;
ghost use Rattle.frame_bridge.specs.Spelling.{IsSpelling, IsWorld, world_of};
ghost use Rattle.frame_bridge.specs.declared.ports.Port.{Port as HeldPort};
ghost use Rattle.frame_bridge.specs.Forwarding.{first_ports, forward};
ghost use Rattle.frame_bridge.specs.Links.{link_config};
ghost use Rattle.frame_bridge.specs.Run.{World, started};
ghost use Rattle.frame_bridge.specs.Output.{pieces_of, port_rows, outs, IsBridged, IsOutput, output_of};
ghost use Rattle.frame_bridge.specs.Refinement.{shape, PortRefines, ArePorts, RunRefines, IsThere, IsUnderWay};

use crate::faults::BridgeFault;
use crate::learning::Bridge;
use crate::limits::PORT_OUT;
use crate::output::{Line, put};
use crate::ports::Port;
use crate::reading::parse;
use crate::run::Run;
use crate::scripts::{Script, SentFrames};
use ivs_base::NoMemory;
use section_map::{Geometry, PAGE};
use split_ring::{LEAST_MTU, Queue};
use std::alloc::Global;

/// Returns the geometry of a port's region: a page for the State Table, and sections of `PORT_OUT`
/// bytes for two peers.
fn region() -> Geometry
    ensures { result ≡ shape }
{
    match Geometry::new(2, PAGE, 0, PORT_OUT) {
        Ok(geometry) => geometry,
        Err(_) => unreachable!(),
    }
}

/// Returns the queue of such a section, for the least MTU.
fn section() -> Queue
    ensures { result ≡ link_config.sizes }
{
    match Queue::of(PORT_OUT, LEAST_MTU) {
        Ok(queue) => queue,
        Err(_) => unreachable!(),
    }
}

/// Returns `count` initial ports, whose stations send nothing.
fn ports_at_start(alloc: Global, count: u32) -> Result<Vec<Port>, NoMemory>
    ensures long { IfOk result (λ ports. length ports.items ≡ count) }
    ensures each { IfOk result (λ ports. (k : ℕ) (port : HeldPort) → slice_get ports.items k ≡ Some port →
        PortRefines ((started []).links k) [] port) }
{
    let geometry = region();
    let queue = section();
    let mut ports = Vec::new(alloc);
    for _number in 0..count {
        ports.push(Port::new(alloc, &geometry, &queue)?)?;
    }
    Ok(ports)
}

impl Run {
    /// Returns an initial run of `ports` ports, whose stations send nothing.
    fn new(alloc: Global, ports: u32) -> Result<Run, NoMemory>
        requires { (2 ≤ ports) × (ports ≤ 8) }
        ensures { IfOk result (RunRefines ports (started [])) }
    {
        Ok(Run {
            bridge: Bridge::new(alloc, ports)?,
            ports: ports_at_start(alloc, ports)?,
            text: Vec::new(alloc),
        })
    }

    /// Adds each frame of the list to its station's frames.
    fn send(&mut self, sent: SentFrames) -> Result<(), NoMemory>
        requires { (k : ℕ) (s : SentFrame) → slice_get sent k ≡ Some s → s.port < length self.old.ports.items }
        ensures { (ports : ℕ) → RunRefines ports (started []) self.old →
            OnOk result (RunRefines ports (started sent) self.new) }
    {
        for one in sent.into_items() {
            let port = &mut self.ports[one.port as usize];
            port.send(one.frame)?;
        }
        Ok(())
    }
}

/// Appends the lines of a port: the frames that its station delivered, and the number of forwarded
/// frames that are left.
fn put_port(out: &mut Vec<u8>, number: u64, port: &Port) -> Result<(), NoMemory>
    requires { port.now.delivered ≤ port.now.forwarded }
    ensures { (w : World) → PortRefines (w.links number) (forward w.arrivals number) port.now →
        length (forward w.arrivals number) < 2 ^ 64 →
        length (outs w number) ≤ length (forward w.arrivals number) →
        OnOk result (out.new.items ≡ out.old.items ++ text_of pieces_of (port_rows w number)) }
{
    put(out, Line::Port, &[number], &[])?;
    out.extend_from_slice(&port.outs)?;
    put(out, Line::Left, &[port.forwarded - port.delivered], &[])?;
    Ok(())
}

/// Appends the lines of all ports.
fn put_ports(out: &mut Vec<u8>, ports: &[Port]) -> Result<(), NoMemory>
    requires { (k : ℕ) (port : HeldPort) → slice_get ports.now k ≡ Some port → port.delivered ≤ port.forwarded }
    ensures { (w : World) → ArePorts w ports.now →
        OnOk result (out.new.items ≡
        out.old.items ++ text_of pieces_of (flat_map (port_rows w) (first_ports (length ports.now)))) }
{
    for (number, port) in ports.iter().enumerate() {
        put_port(out, number as u64, port)?;
    }
    Ok(())
}

impl Run {
    /// Returns the output of the run at its end.
    fn finish(self) -> Result<Vec<u8>, NoMemory>
        requires { IsUnderWay self }
        ensures { (sent : List SentFrame) (ports : ℕ) (w : World) → IsThere sent ports w self →
            IfOk result (λ output. output.items ≡ output_of ports w) }
    {
        let Run {
            bridge,
            ports,
            mut text,
        } = self;
        put_ports(&mut text, &ports)?;
        put(&mut text, Line::Known, &[u64::from(bridge.known())], &[])?;
        put(&mut text, Line::End, &[], &[])?;
        Ok(text)
    }
}

/// Returns the output of the run of a script.
fn output(alloc: Global, script: Script) -> Result<Vec<u8>, NoMemory>
    requires { IsWorld (world_of script) }
    ensures { IfOk result (λ output. IsOutput (world_of script) output.items) }
{
    let Script {
        ports,
        rounds,
        sent,
    } = script;
    let mut run = Run::new(alloc, ports)?;
    run.send(sent)?;
    run.rounds(alloc, rounds)?;
    run.finish()
}

/// Returns the output of the run that a text spells. The text is `bridge 1`, `ports K` with 2 to 8,
/// `rounds R` with 0 to 4,000, and `begin`. Then come at most 10,000 lines `frame PORT HEX` with 14
/// to 274 bytes, and `end`.
///
/// Each port has a link between a station, which sends its frames, and the bridge's end. In a round
/// each port in ascending order has 64 turns of its station, then 64 of the bridge's end. Each
/// frame that the bridge's end delivers arrives. Otherwise returns the first fault of the text, or
/// `NoMemory` if an allocation fails.
// claim found: The output is that of the one run of the script that the bytes spell. The ends of
//    each port are two honest ends over its words. What arrived at a port begins what its station
//    sends; what its station delivered begins what was forwarded to it, and the rest is left.
// claim only, fault: A text that spells a run is refused for want of memory alone, and another by
//    its first fault.
pub fn bridge(alloc: Global, bytes: &[u8]) -> Result<Vec<u8>, BridgeFault>
    // The result is the output of the run that the bytes spell.
    ensures found { IfOk result (λ output. IsBridged bytes.now output.items) }
    // For a text that spells a run the one fault is a failed allocation.
    ensures only { (w : text.World) → IsSpelling w bytes.now → IfErr result (λ fault. fault ≡ OutOfMemory) }
    // The fault that is returned.
    ensures fault { IfErr result (λ fault. Refuses sense fault (answer bytes.now)) }
{
    let script = match parse(alloc, bytes) {
        Ok(script) => script,
        Err(fault) => return Err(fault),
    };
    match output(alloc, script) {
        Ok(output) => Ok(output),
        Err(NoMemory) => Err(BridgeFault::NoMemory),
    }
}
