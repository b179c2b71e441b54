use lr_commands::{Channels, Request};
use lr_names::{Channel, Kind, Name};
use std::test::Fail;

#[test]
fn a_request_carries_its_channels(rt: HostRuntime) -> Result<(), Fail> {
    let mut channels = Channels::new(rt.alloc());
    assert!(rt; channels.is_empty());
    let name = Name::parse(b"orders")?;
    channels.push(Channel::of(Kind::Mutex, &name))?;
    channels.push(Channel::of(Kind::Semaphore, &name))?;

    let Request::Subscribe(channels) = Request::Subscribe(channels) else {
        return Err("no subscription".into());
    };
    assert_eq!(rt; channels.len(), 2);
    for (channel, kind) in channels
        .as_slice()
        .iter()
        .zip([Kind::Mutex, Kind::Semaphore])
    {
        assert_eq!(rt; channel.kind(), kind);
    }
    Ok(())
}
