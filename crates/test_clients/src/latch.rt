use lr_latch::Latches;
use lr_names::{Channel, Due, Kind, Name};
use lr_waiting::{Checked, Woken};
use std::alloc::Global;
use std::test::Fail;

// Whether the oldest order is taken, and is such a one.
fn orders(latches: &mut Latches, subscribe: bool) -> bool {
    match latches.next_order() {
        Some(order) => order.subscribe == subscribe,
        None => false,
    }
}

// Whether one more thread registers, and its client hears the channel then.
fn registers(latches: &mut Latches, channel: &Channel, hears: bool) -> bool {
    latches.register(channel) == Ok(hears)
}

fn finds(latches: &mut Latches, channel: &Channel, wanted: Checked) -> bool {
    latches.check(channel, 0, Due::At(500), 499) == wanted
}

// Whether the first of two threads makes an order, and both wait once it is acknowledged.
fn joins(latches: &mut Latches, channel: &Channel) -> bool {
    registers(latches, channel, false)
        && registers(latches, channel, false)
        && orders(latches, true)
        && latches.next_order().is_none()
        && latches.acked(channel)
}

// Whether a message lets one of two threads ask once more, and the other stays asleep.
fn wakes_one(latches: &mut Latches, channel: &Channel) -> bool {
    let asleep = finds(latches, channel, Checked::Sleep);
    latches.deliver(channel);
    asleep
        && latches.permits(channel) == 1
        && latches.wake(channel, 0) == Woken::Permit
        && latches.wake(channel, 0) == Woken::NotYet
}

// Whether a thread that leaves hands its turn on, and the last one leaves the channel.
fn leaves(latches: &mut Latches, channel: &Channel) -> bool {
    latches.leave(channel);
    let handed_on = latches.permits(channel) == 1 && latches.first_order().is_none();
    latches.leave(channel);
    handed_on && orders(latches, false) && latches.permits(channel) == 0
}

// Whether a thread asks again by itself once its due moment has come.
fn falls_due(latches: &mut Latches, channel: &Channel) -> bool {
    latches.check(channel, 0, Due::At(500), 500) == Checked::Timer
        && latches.check(channel, 0, Due::Never, 500) == Checked::Sleep
}

fn locks_wake_one(alloc: Global, channel: &Channel) -> bool {
    let mut latches = Latches::new(alloc);
    joins(&mut latches, channel)
        && falls_due(&mut latches, channel)
        && wakes_one(&mut latches, channel)
        && leaves(&mut latches, channel)
}

// Whether a message to two threads counts once, and gives no permit.
fn counts_once(latches: &mut Latches, channel: &Channel) -> bool {
    latches.deliver(channel);
    latches.seen(channel) == 1 && latches.permits(channel) == 0
}

// Whether who noted the number before the message is awake, at the look before sleep and asleep, and
// who noted the number after it isn't.
fn wakes_by_number(latches: &mut Latches, channel: &Channel) -> bool {
    finds(latches, channel, Checked::Broadcast)
        && latches.wake(channel, 0) == Woken::Broadcast
        && latches.check(channel, 1, Due::Never, 499) == Checked::Sleep
        && latches.wake(channel, 1) == Woken::NotYet
}

// Whether a message wakes both of two threads of a latch that wakes all, of which one that leaves
// hands nothing on.
fn latches_wake_all(alloc: Global, channel: &Channel) -> bool {
    let mut latches = Latches::new(alloc);
    let woken = joins(&mut latches, channel)
        && counts_once(&mut latches, channel)
        && wakes_by_number(&mut latches, channel);
    latches.leave(channel);
    woken && latches.permits(channel) == 0 && latches.seen(channel) == 1
}

// Whether an acknowledgement of an order that was taken back isn't one of the next order.
fn old_acknowledgement(alloc: Global, channel: &Channel) -> bool {
    let mut latches = Latches::new(alloc);
    let first = registers(&mut latches, channel, false) && orders(&mut latches, true);
    latches.leave(channel);
    first
        && orders(&mut latches, false)
        && registers(&mut latches, channel, false)
        && !latches.acked(channel)
        && latches.acked(channel)
}

#[test]
fn threads_share_a_latch(rt: HostRuntime) -> Result<(), Fail> {
    let name = Name::parse(b"a")?;
    let lock = Channel::of(Kind::Mutex, &name);
    let latch = Channel::of(Kind::Countdown, &name);
    assert!(rt; locks_wake_one(rt.alloc(), &lock));
    assert!(rt; latches_wake_all(rt.alloc(), &latch));
    assert!(rt; old_acknowledgement(rt.alloc(), &lock));
    Ok(())
}
