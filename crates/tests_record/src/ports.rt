//! Worked calls of a port, with the values of the words.
ghost use Rattle.std.specs.Prelude.{◌≡◌, ◌≤◌, ◌<◌, IfOk, length};
ghost use Rattle.sampling_port.specs.Views.{KeepsNumbers};

use sampling_port::{
    Port, PortFault, PortField, PortNote, calls_are_lists, calls_are_permitted,
    fields_are_read_once, ports_follow_calls,
};
use section_map::Geometry;
use split_ring::steps::Access;
use std::alloc::Global;
use std::process::Abort;
use std::test::Fail;

/// Returns the geometry of two peers with sections of 4,096 bytes, at words 1,024 and 2,048.
fn example(rt: &impl Abort) -> Geometry
    ensures { result.peers ≡ 2 }
{
    let geometry = Geometry::new(2, 4096, 0, 4096).expect(rt, "a geometry");
    assert!(rt; geometry.peers() == 2);
    geometry
}

/// Returns the port of peer `me` for messages of at most 8 bytes.
fn port(rt: &impl Abort, alloc: Global, me: u32) -> Result<Port, PortFault>
    requires { me < 2 }
    ensures { IfOk result (λ port. (port.most ≡ 8) × (port.me ≡ me) × (port.shape.peers ≡ 2)) }
{
    Port::new(alloc, me, &example(rt), 8)
}

fn publish(rt: &impl Abort, port: &mut Port, message: &[u8])
    requires some { 1 ≤ length message.now }
    requires few { length message.now ≤ 8 }
    requires size { port.old.most ≡ 8 }
    ensures { KeepsNumbers port.old port.new }
{
    assert!(rt; !port.busy());
    assert!(rt; port.published() < 100);
    port.publish(message);
}

/// Makes one step of the open call: this access, this value and this note.
fn takes(rt: &impl Abort, port: &mut Port, access: Access, value: u32, note: Option<PortNote>)
    ensures { KeepsNumbers port.old port.new }
{
    assert!(rt; port.busy());
    assert_eq!(rt; port.next(), access);
    assert_eq!(rt; port.took(value), note);
}

// claim sampling_port.Port.took.note
// claim sampling_port.fields_are_read_once
#[test]
fn one_message(rt: HostRuntime) -> Result<(), Fail> {
    let mut writer = port(&rt, rt.alloc(), 0)?;
    publish(&rt, &mut writer, &[1, 2]);
    takes(&rt, &mut writer, Access::Write(1_028, 2), 0, None);
    takes(&rt, &mut writer, Access::Write(1_029, 513), 0, None);
    let published = Some(PortNote::Publish(1));
    takes(&rt, &mut writer, Access::Write(1_024, 1), 0, published);
    assert!(rt; !writer.busy());
    let mut reader = port(&rt, rt.alloc(), 1)?;
    assert!(rt; reader.message().is_empty());
    assert!(rt; !reader.busy());
    reader.sample(0);
    takes(&rt, &mut reader, Access::Read(1_024), 1, None);
    takes(&rt, &mut reader, Access::Read(1_028), 2, None);
    takes(&rt, &mut reader, Access::Read(1_029), 513, None);
    let got = Some(PortNote::Got(1));
    takes(&rt, &mut reader, Access::Read(1_024), 1, got);
    assert!(rt; reader.message() == [1, 2].as_slice());
    assert_eq!(rt; reader.last(0), 1);
    assert_eq!(rt; reader.last(1), 0);
    calls_are_lists();
    calls_are_permitted();
    fields_are_read_once();
    ports_follow_calls();
    Ok(())
}

/// Makes a sample of peer 0 that refuses this length.
fn refuses_length(rt: &impl Abort, reader: &mut Port, value: u32)
    requires peers { reader.old.shape.peers ≡ 2 }
    ensures { KeepsNumbers reader.old reader.new }
{
    assert!(rt; !reader.busy());
    reader.sample(0);
    takes(rt, reader, Access::Read(1_024), 1, None);
    let refused = Some(PortNote::Refuse {
        field: PortField::Length,
        value,
    });
    takes(rt, reader, Access::Read(1_028), value, refused);
}

// claim sampling_port.Port.took.note
#[test]
fn values_of_a_hostile_peer(rt: HostRuntime) -> Result<(), Fail> {
    let mut reader = port(&rt, rt.alloc(), 1)?;
    refuses_length(&rt, &mut reader, 0);
    refuses_length(&rt, &mut reader, 9);
    refuses_length(&rt, &mut reader, 4_294_967_295);
    // The longest message, and the highest number.
    assert!(rt; !reader.busy());
    reader.sample(0);
    let most = 4_294_967_295;
    takes(&rt, &mut reader, Access::Read(1_024), most, None);
    takes(&rt, &mut reader, Access::Read(1_028), 8, None);
    takes(&rt, &mut reader, Access::Read(1_029), 0x0403_0201, None);
    takes(&rt, &mut reader, Access::Read(1_030), 0x0807_0605, None);
    let got = Some(PortNote::Got(most));
    takes(&rt, &mut reader, Access::Read(1_024), most, got);
    assert!(rt; reader.message() == [1, 2, 3, 4, 5, 6, 7, 8].as_slice());
    // An older number is refused, and the message got doesn't change.
    assert!(rt; !reader.busy());
    reader.sample(0);
    let older = Some(PortNote::Refuse {
        field: PortField::Sequence,
        value: most - 1,
    });
    takes(&rt, &mut reader, Access::Read(1_024), most - 1, older);
    assert!(rt; reader.message().len() == 8);
    assert_eq!(rt; reader.last(0), most);
    // The number of the port's own peer is another one.
    assert!(rt; !reader.busy());
    reader.sample(1);
    let nothing = Some(PortNote::Nothing);
    takes(&rt, &mut reader, Access::Read(2_048), 0, nothing);
    Ok(())
}

// claim sampling_port.Port.publish.value
#[test]
fn sizes_of_a_port(rt: HostRuntime) {
    let geometry = example(&rt);
    for message in [0, 2, 6, 65_537, 65_540, 4_294_967_292] {
        match Port::new(rt.alloc(), 0, &geometry, message) {
            Err(fault) => assert_eq!(rt; fault, PortFault::BadMessage(message)),
            Ok(_) => assert!(rt; false, "{message}"),
        }
    }
    // 3 + 2,044 / 2 words are more than 1,024; 3 + 2,040 / 2 aren't.
    match Port::new(rt.alloc(), 0, &geometry, 2_044) {
        Err(fault) => {
            let small = PortFault::TooSmall {
                need: 4_100,
                out: 4_096,
            };
            assert_eq!(rt; fault, small);
        }
        Ok(_) => assert!(rt; false),
    }
    assert!(rt; Port::new(rt.alloc(), 0, &geometry, 2_040).is_ok());
}
