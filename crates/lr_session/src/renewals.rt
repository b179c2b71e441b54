//! How a client renews the holds that it watches.
ghost use Rattle.std.specs.Prelude.{◌≡◌, ◌≤◌, Some, None, IfOk, IfErr, IfSome, IfNone, OnErr, OnOk, OnSome};
ghost use Rattle.lr_limits.specs.Limits.{last_moment};
ghost use Rattle.lr_waiting.specs.declared.watch.WatchKey.{WatchKey};
ghost use Rattle.lr_waiting.specs.Session.{renew_row, renewed_row};
ghost use Rattle.lr_waiting.specs.Watchdog.{IsNextDue, IsToRenew, is_renewed, is_watched, renew_fault, renewal_call, renewal_op, renewal_taken_by};
ghost use Rattle.lr_session.specs.Value.{session_of};

use crate::state::SessionState;
use lr_names::Due;
use lr_objects::{Access, Call, FairCall, FencedCall, LockCall, Op, ReadWriteCall, Reply};
use lr_waiting::{RenewFault, RenewTaken, Renewal, WatchKey, WatchKind};

impl SessionState {
    /// Whether a hold is renewed.
    pub fn watched(&self, key: &WatchKey) -> bool
        ensures { result ≡ is_watched (session_of self.now).watchdog key.now }
    {
        self.watches.is_watched(key)
    }

    /// The renewal of a hold that was asked for, and whose reply wasn't taken.
    pub fn renewing(&self, key: &WatchKey) -> Option<Renewal>
        ensures { result ≡ (session_of self.now).watchdog.renewals key.now }
    {
        self.watches.renewal(key)
    }

    /// The call by which a hold is renewed, for as long as the watchdog's lease.
    pub fn renewal_op(&self, key: &WatchKey) -> Op
        ensures { result ≡ renewal_op key.now (session_of self.now).watchdog.lease }
    {
        renewal_op(key, self.watches.lease())
    }

    /// A hold that is to be renewed at this moment: `None` where none is.
    pub fn first_due(&self, moment: u64) -> Option<WatchKey>
        ensures some { let watchdog = (session_of self.now).watchdog in
            IfSome result (λ key. IsToRenew moment watchdog key) }
        ensures none { let watchdog = (session_of self.now).watchdog in
            IfNone result ((key : WatchKey) → IsToRenew moment watchdog key → ⊥) }
    {
        self.watches.first_due(moment)
    }

    /// When the next renewal is to be asked for.
    pub fn next_due(&self) -> Due
        ensures { IsNextDue (session_of self.now).watchdog result }
    {
        self.watches.next_due()
    }

    /// A renewal of a hold is asked for, at a moment: this is its call. It takes no memory, and an
    /// error changes nothing.
    pub fn renew_ask(&mut self, key: &WatchKey, moment: u64) -> Result<Op, RenewFault>
        requires { moment ≤ last_moment }
        ensures ok { OnOk result (Some (session_of self.new)
            ≡ renew_row key.now moment (session_of self.old)) }
        ensures op { let watchdog = (session_of self.old).watchdog in
            IfOk result (λ op. op ≡ renewal_op key.now watchdog.lease) }
        ensures fault { let watchdog = (session_of self.old).watchdog in
            IfErr result (λ fault. renew_fault moment key.now watchdog ≡ Some fault) }
        ensures err { OnErr result (self.new ≡ self.old) }
        ensures room { self.new.room ≡ self.old.room }
    {
        let lease = self.watches.lease();
        self.watches.renew_asked(key, moment)?;
        Ok(renewal_op(key, lease))
    }

    /// The reply to a renewal is taken: `None`, and nothing changes, where none was asked for. A
    /// hold that couldn't be renewed isn't watched any longer. It takes no memory.
    pub fn renew_take(&mut self, key: &WatchKey, reply: &Reply) -> Option<RenewTaken>
        ensures told { let watchdog = (session_of self.old).watchdog in
            result ≡ renewal_taken_by (is_renewed reply.now) key.now watchdog }
        ensures some { OnSome result (Some (session_of self.new)
            ≡ renewed_row key.now reply.now (session_of self.old)) }
        ensures none { let session = session_of self.old in
            IfNone result (renewed_row key.now reply.now session ≡ None) }
        ensures same { IfNone result (session_of self.new ≡ session_of self.old) }
        ensures room { self.new.room ≡ self.old.room }
    {
        self.watches.renew_taken(key, is_renewed(reply))
    }
}

// The call by which a hold is renewed.
fn renewal_op(key: &WatchKey, lease: u64) -> Op
    ensures { result ≡ renewal_op key.now lease }
{
    Op {
        name: key.name,
        call: renewal_call(key, lease),
    }
}

fn renewal_call(key: &WatchKey, lease: u64) -> Call
    ensures { result ≡ renewal_call key.now.kind key.now.owner lease }
{
    let owner = key.owner;
    match key.kind {
        WatchKind::Lock => Call::Lock(LockCall::Renew { owner, lease }),
        WatchKind::Fair => Call::Fair(FairCall::Renew { owner, lease }),
        WatchKind::Fenced => Call::Fenced(FencedCall::Renew { owner, lease }),
        WatchKind::Read => Call::ReadWrite(ReadWriteCall::Renew {
            access: Access::Read,
            owner,
            lease,
        }),
        WatchKind::Write => Call::ReadWrite(ReadWriteCall::Renew {
            access: Access::Write,
            owner,
            lease,
        }),
    }
}

// Whether a hold was renewed.
fn is_renewed(reply: &Reply) -> bool
    ensures { result ≡ is_renewed reply.now }
{
    matches!(reply, Reply::Renewed)
}
