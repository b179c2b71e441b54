//! What a request has to do with the watches of its client: the lease of its call, and what its
//! reply begins and ends.
ghost use Rattle.std.specs.Prelude.{◌≡◌, ◌≤◌, if◌then◌else◌, OnOk, OnErr};
ghost use Rattle.lr_limits.specs.Limits.{last_moment};
ghost use Rattle.lr_names.specs.Owner.{IsThread};
ghost use Rattle.lr_waiting.specs.Session.{access_watched, asks_watched, is_watched_in, key_in, lease_in, watch_begun, watch_ended, watch_kind, watched_by};
ghost use Rattle.lr_session.specs.Value.{IsAsking, session_of};

use crate::stages::is_watch;
use crate::state::SessionState;
use lr_objects::{Function, Lease, ReadWriteFunction, Reply, Want};
use lr_waiting::{Asking, WatchKey, WatchKind};
use std::alloc::AllocError;

impl SessionState {
    /// The hold that a request is about: `None` where no watchdog can renew what the function is
    /// about.
    pub(crate) fn key_of(&self, thread: u32, want: &Want) -> Option<WatchKey>
        requires { IsThread thread }
        ensures { result ≡ key_in (session_of self.now) thread want.now }
    {
        let kind = watch_kind(want.function)?;
        Some(WatchKey {
            owner: self.owner(thread),
            kind,
            name: want.name,
        })
    }

    /// Whether a request gets the watchdog's lease: it says so, or its hold is renewed already.
    pub(crate) fn asks_watched(&self, thread: u32, want: &Want) -> bool
        requires { IsThread thread }
        ensures { result ≡ asks_watched (session_of self.now) thread want.now }
    {
        is_watch(want.lease) || self.renews(self.key_of(thread, want))
    }

    // Whether a hold is renewed.
    fn renews(&self, key: Option<WatchKey>) -> bool
        ensures { result ≡ is_watched_in (session_of self.now) key }
    {
        match key {
            Some(key) => self.watches.is_watched(&key),
            None => false,
        }
    }

    /// The lease of a call in milliseconds: the watchdog's where it is watched, so that a hold that
    /// is renewed lasts until its next renewal.
    pub(crate) fn lease_asked(&self, watched: bool, lease: Lease) -> u64
        ensures { let session = session_of self.now in
            result ≡ (if watched then session.watchdog.lease else lease_in session lease) }
    {
        if watched {
            return self.watches.lease();
        }
        match lease {
            Lease::Watch => self.watches.lease(),
            Lease::For(millis) => millis,
        }
    }

    /// What a reply changes of the watches: a grant whose call was watched begins one, and what was
    /// freed or isn't held needs none. An error changes nothing.
    pub(crate) fn watch(
        &mut self,
        key: Option<WatchKey>,
        asking: &Asking,
        reply: &Reply,
    ) -> Result<(), AllocError>
        requires { IsAsking asking.now }
        ensures ok { OnOk result (session_of self.new
            ≡ watched_by reply.now asking.now key (session_of self.old)) }
        ensures err { OnErr result (self.new ≡ self.old) }
        ensures room { self.new.room ≡ self.old.room }
    {
        match reply {
            Reply::Granted | Reply::GrantedToken(_) => {
                if asking.watched {
                    self.begin_watch(key, asking.at)?;
                }
            }
            Reply::Freed | Reply::NotHeld => self.end_watch(key),
            _ => {}
        }
        Ok(())
    }

    // A hold is renewed from now on, that was asked for at a moment. An error changes nothing.
    fn begin_watch(&mut self, key: Option<WatchKey>, at: u64) -> Result<(), AllocError>
        requires { at ≤ last_moment }
        ensures ok { OnOk result (session_of self.new ≡ watch_begun at key (session_of self.old)) }
        ensures err { OnErr result (self.new ≡ self.old) }
        ensures room { self.new.room ≡ self.old.room }
    {
        match key {
            Some(key) => self.watches.granted(&key, at),
            None => Ok(()),
        }
    }

    // A hold isn't renewed any longer.
    fn end_watch(&mut self, key: Option<WatchKey>)
        ensures session { session_of self.new ≡ watch_ended key (session_of self.old) }
        ensures room { self.new.room ≡ self.old.room }
    {
        if let Some(key) = key {
            self.watches.dropped(&key);
        }
    }
}

// What kind of hold a function is about, where a watchdog can renew it.
fn watch_kind(function: Function) -> Option<WatchKind>
    ensures { result ≡ watch_kind function }
{
    match function {
        Function::Lock(_) => Some(WatchKind::Lock),
        Function::Fair(_) => Some(WatchKind::Fair),
        Function::Fenced(_) => Some(WatchKind::Fenced),
        Function::ReadWrite(function) => Some(access_watched(function)),
        Function::Semaphore(_) | Function::Permits(_) | Function::Countdown(_) => None,
    }
}

// Of a read-write lock: whether a function is about the hold to read or that to write.
fn access_watched(function: ReadWriteFunction) -> WatchKind
    ensures { result ≡ access_watched function }
{
    match function {
        ReadWriteFunction::Read | ReadWriteFunction::UnlockRead | ReadWriteFunction::Renew => {
            WatchKind::Read
        }
        ReadWriteFunction::Write | ReadWriteFunction::UnlockWrite => WatchKind::Write,
    }
}
