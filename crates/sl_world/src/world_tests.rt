use super::*;
use sl_defs::Event;
use sl_frames::{Body, Frame};
use sl_past::Remark;
use sl_types::{Bytes, Policy, Setup};
use std::alloc::Global;
use std::test::Fail;

/// A volume with so many servers of each class.
fn setup(dirs: u8, small: u8, nodes: u8) -> Setup {
    Setup {
        volume: 7,
        policy: Policy::Switch(0),
        dirs,
        small,
        nodes,
    }
}

/// The world when it has opened.
fn opened(alloc: Global) -> Result<World, WorldFault> {
    let (world, _) = World::open(alloc, &setup(1, 1, 1))?;
    Ok(world)
}

/// The world when the coordinator was given its Hello.
fn greeted(alloc: Global) -> Result<(World, Notes), WorldFault> {
    let mut world = opened(alloc)?;
    let notes = world.event(alloc, &Event::Give(1))?;
    Ok((world, notes))
}

/// A frame to this actor.
fn frame_to(to: u8) -> Frame {
    Frame {
        from: 1,
        to,
        fence: 1,
        tag: 0,
        low: 0,
        op: 0,
        boot: 0,
        arrival: 0,
        body: Body::Welcome,
    }
}

/// The world when it has opened, with a frame to this actor in flight under the number 5.
fn with_frame_to(alloc: Global, to: u8) -> Result<World, WorldFault> {
    let mut world = opened(alloc)?;
    let flying = Flying {
        frame: frame_to(to),
        event: 0,
    };
    world.flight.put(5, flying)?;
    Ok(world)
}

#[test]
fn an_opening_notes_its_hello(rt: HostRuntime) -> Result<(), Fail> {
    let (_, notes) = World::open(rt.alloc(), &setup(1, 1, 1)).map_err(|_| "not opened")?;
    let [Remark::Sent { number, frame }] = notes.as_slice() else {
        return Err("not one frame".into());
    };
    assert_eq!(rt; *number, 1);
    assert_eq!(rt; frame.fence, 1 << 32);
    assert!(rt; matches!(frame.body, Body::Hello));
    Ok(())
}

#[test]
fn an_opened_world_has_one_frame_in_flight(rt: HostRuntime) -> Result<(), Fail> {
    let world = opened(rt.alloc()).map_err(|_| "not opened")?;
    assert_eq!(rt; world.in_flight(), 1);
    assert_eq!(rt; world.oldest(), Some(1));
    Ok(())
}

#[test]
fn an_opened_world_is_busy_until_its_proxy_is_welcomed(rt: HostRuntime) -> Result<(), Fail> {
    let mut world = opened(rt.alloc()).map_err(|_| "not opened")?;
    assert!(rt; world.busy());
    world.proxy.welcomed = true;
    assert!(rt; !world.busy());
    Ok(())
}

#[test]
fn a_volume_of_two_directory_servers_is_not_built(rt: HostRuntime) {
    let opened = World::open(rt.alloc(), &setup(2, 1, 1));
    assert!(rt; matches!(opened, Err(WorldFault::NotBuilt)));
}

#[test]
fn a_volume_of_five_small_file_servers_is_not_built(rt: HostRuntime) {
    let opened = World::open(rt.alloc(), &setup(1, 5, 1));
    assert!(rt; matches!(opened, Err(WorldFault::NotBuilt)));
}

#[test]
fn a_volume_of_nine_storage_nodes_is_not_built(rt: HostRuntime) {
    let opened = World::open(rt.alloc(), &setup(1, 1, 9));
    assert!(rt; matches!(opened, Err(WorldFault::NotBuilt)));
}

#[test]
fn a_hello_that_is_given_is_answered_by_the_second_frame(rt: HostRuntime) -> Result<(), Fail> {
    let (_, notes) = greeted(rt.alloc()).map_err(|_| "not given")?;
    let [Remark::Sent { number, frame }] = notes.as_slice() else {
        return Err("not one frame".into());
    };
    assert_eq!(rt; *number, 2);
    assert_eq!(rt; frame.fence, 1 << 32);
    assert!(rt; matches!(frame.body, Body::Welcome));
    Ok(())
}

#[test]
fn a_frame_that_is_given_flies_no_longer(rt: HostRuntime) -> Result<(), Fail> {
    let (world, _) = greeted(rt.alloc()).map_err(|_| "not given")?;
    assert_eq!(rt; world.in_flight(), 1);
    assert_eq!(rt; world.oldest(), Some(2));
    assert_eq!(rt; world.event, 1);
    Ok(())
}

#[test]
fn an_unknown_frame_is_told(rt: HostRuntime) -> Result<(), Fail> {
    let mut world = opened(rt.alloc()).map_err(|_| "not opened")?;
    let given = world.event(rt.alloc(), &Event::Give(9));
    assert!(rt; matches!(given, Err(WorldFault::UnknownFrame(9))));
    let lost = world.event(rt.alloc(), &Event::Drop(8));
    assert!(rt; matches!(lost, Err(WorldFault::UnknownFrame(8))));
    assert_eq!(rt; world.event, 0);
    Ok(())
}

#[test]
fn an_event_that_is_not_built_is_told(rt: HostRuntime) -> Result<(), Fail> {
    let mut world = opened(rt.alloc()).map_err(|_| "not opened")?;
    let copied = world.event(rt.alloc(), &Event::Copy(1));
    assert!(rt; matches!(copied, Err(WorldFault::NotBuilt)));
    let ticked = world.event(rt.alloc(), &Event::Tick);
    assert!(rt; matches!(ticked, Err(WorldFault::NotBuilt)));
    Ok(())
}

#[test]
fn a_frame_to_a_data_server_is_not_built(rt: HostRuntime) -> Result<(), Fail> {
    let mut world = with_frame_to(rt.alloc(), 32).map_err(|_| "not opened")?;
    let given = world.event(rt.alloc(), &Event::Give(5));
    assert!(rt; matches!(given, Err(WorldFault::NotBuilt)));
    Ok(())
}

#[test]
fn a_datagram_is_an_event(rt: HostRuntime) -> Result<(), Fail> {
    let mut world = opened(rt.alloc()).map_err(|_| "not opened")?;
    let datagram = Bytes::new(Vec::new(rt.alloc()));
    let _ = world.event(
        rt.alloc(),
        &Event::Call {
            client: 3,
            datagram,
        },
    );
    assert_eq!(rt; world.event, 1);
    assert_eq!(rt; world.in_flight(), 1);
    Ok(())
}

#[test]
fn the_last_numbers_are_never_used(rt: HostRuntime) -> Result<(), Fail> {
    let mut world = opened(rt.alloc()).map_err(|_| "not opened")?;
    world.next_frame = u64::MAX;
    let given = world.event(rt.alloc(), &Event::Give(1));
    assert!(rt; matches!(given, Err(WorldFault::Spent)));
    Ok(())
}

#[test]
fn the_last_event_is_the_last(rt: HostRuntime) -> Result<(), Fail> {
    let mut world = opened(rt.alloc()).map_err(|_| "not opened")?;
    world.event = u64::MAX;
    let datagram = Bytes::new(Vec::new(rt.alloc()));
    let call = world.event(
        rt.alloc(),
        &Event::Call {
            client: 3,
            datagram,
        },
    );
    assert!(rt; matches!(call, Err(WorldFault::Spent)));
    Ok(())
}

#[test]
fn notes_stand_in_the_order_in_which_they_were_put(rt: HostRuntime) -> Result<(), Fail> {
    let mut notes = Notes::one(rt.alloc(), Remark::Verf(3))?;
    notes.push(Remark::Junk(4))?;
    notes.append(Notes::one(rt.alloc(), Remark::Early(5))?)?;
    let all = notes.as_slice();
    assert!(rt; matches!(all, [Remark::Verf(3), Remark::Junk(4), Remark::Early(5)]));
    Ok(())
}
