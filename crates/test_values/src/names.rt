use lr_names::*;
use std::alloc::{AllocError, Global};
use std::test::Fail;
use uuid::Uuid;

const OWNER: &[u8] = b"67e55044-10b1-426f-9247-bb680e5fe0c8:256";

fn is_name(text: &[u8]) -> bool {
    Name::parse(text).is_ok()
}

// The longest name has 64 bytes.
fn names() -> bool {
    let long = [b'a'; 65];
    let good = is_name(b"a") && is_name(b"Order_7.x-9") && is_name(&long[..64]);
    let bad = is_name(b"") || is_name(b"a:b") || is_name(b"a b") || is_name(b"!") || is_name(&long);
    good && !bad
}

fn is_owner(text: &[u8]) -> bool {
    Owner::parse(text).is_ok()
}

// Other forms of an id, and threads out of range, make no owner.
fn owners() -> bool {
    let good = is_owner(OWNER) && is_owner(b"67e55044-10b1-426f-9247-bb680e5fe0c8:1");
    let threads = is_owner(b"67e55044-10b1-426f-9247-bb680e5fe0c8:0")
        || is_owner(b"67e55044-10b1-426f-9247-bb680e5fe0c8:257")
        || is_owner(b"67e55044-10b1-426f-9247-bb680e5fe0c8:01");
    let ids = is_owner(b"67E55044-10b1-426f-9247-bb680e5fe0c8:1")
        || is_owner(b"67e5504410b1426f9247bb680e5fe0c8:1")
        || is_owner(b"67e55044-10b1-426f-9247-bb680e5fe0c8");
    good && !threads && !ids && read_id(&OWNER[..36]).is_some()
}

fn is_written(owner: &Owner) -> bool {
    let again = Owner::new(owner.client(), owner.thread());
    again.brief().as_slice() == OWNER && owner.client() != Uuid::nil()
}

fn has_key(name: &Name, part: Part, text: &[u8]) -> bool {
    key(part, name).as_slice() == text
}

fn keys(name: &Name) -> bool {
    let locks = has_key(name, Part::Lock, b"lock:jobs")
        && has_key(name, Part::Fair, b"fair:jobs")
        && has_key(name, Part::FairQueue, b"fairq:jobs")
        && has_key(name, Part::FairStale, b"fairt:jobs")
        && has_key(name, Part::Rw, b"rw:jobs")
        && has_key(name, Part::RwDeadlines, b"rwt:jobs");
    let others = has_key(name, Part::Fenced, b"fenced:jobs")
        && has_key(name, Part::Token, b"token:jobs")
        && has_key(name, Part::Semaphore, b"sem:jobs")
        && has_key(name, Part::Permits, b"permits:jobs")
        && has_key(name, Part::PermitLeases, b"permitt:jobs")
        && has_key(name, Part::Countdown, b"latch:jobs");
    locks && others
}

fn kinds() -> bool {
    Kind::of_word(b"latch") == Some(Kind::Countdown)
        && Kind::of_word(b"lock:").is_none()
        && Kind::Rw.parts() == [Part::Rw, Part::RwDeadlines].as_slice()
}

// Whether a channel has this text, is read back from it, and wakes so many.
fn is_spelled(
    alloc: Global,
    channel: &Channel,
    text: &[u8],
    wakes: Wakes,
) -> Result<bool, AllocError> {
    let written = channel.text(alloc)?;
    let read = Channel::parse(text) == Ok(*channel);
    let post = Post::to(*channel);
    Ok(written.as_slice() == text && read && post.wakes == wakes && post.channel == *channel)
}

// Whether a channel is that of an object of this kind, with an owner for a fair lock alone.
fn is_of(channel: &Channel, kind: Kind) -> bool {
    channel.kind() == kind
        && channel.name().as_slice() == b"jobs".as_slice()
        && channel.owner().is_some() == (kind == Kind::Fair)
}

fn bad_channels() -> bool {
    Channel::parse(b"ch:fair:jobs").is_err() && Channel::parse(b"ch:lock:jobs:1").is_err()
}

#[test]
fn names_keys_and_owners(rt: HostRuntime) -> Result<(), Fail> {
    let name = Name::parse(b"jobs")?;
    let owner = Owner::parse(OWNER)?;
    assert!(rt; names() && owners() && is_written(&owner) && keys(&name) && kinds());
    Ok(())
}

#[test]
fn channels(rt: HostRuntime) -> Result<(), Fail> {
    let name = Name::parse(b"jobs")?;
    let owner = Owner::parse(OWNER)?;
    let lock = Channel::of(Kind::Mutex, &name);
    let latch = Channel::of(Kind::Countdown, &name);
    let fair = Channel::fair(&name, &owner);
    let text = b"ch:fair:jobs:67e55044-10b1-426f-9247-bb680e5fe0c8:256";
    let good = is_spelled(rt.alloc(), &lock, b"ch:lock:jobs", Wakes::One)?
        && is_spelled(rt.alloc(), &latch, b"ch:latch:jobs", Wakes::All)?
        && is_spelled(rt.alloc(), &fair, text, Wakes::One)?;
    let parts = is_of(&lock, Kind::Mutex) && is_of(&latch, Kind::Countdown);
    assert!(rt; good && parts && is_of(&fair, Kind::Fair) && bad_channels());
    Ok(())
}
