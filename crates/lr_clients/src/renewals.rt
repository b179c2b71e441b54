//! How a client renews the holds that it watches: it asks for a renewal, the server executes it,
//! and the client takes the reply.
ghost use Rattle.std.specs.Prelude.{◌≡◌, ◌≤◌, ◌<◌, Some, OnOk};
ghost use Rattle.lr_limits.specs.Limits.{last_moment};
ghost use Rattle.lr_names.specs.Owner.{IsThread};
ghost use Rattle.lr_waiting.specs.Client.{client_row, take_renewed, with_renewed};
ghost use Rattle.lr_waiting.specs.Session.{renew_row};
ghost use Rattle.lr_waiting.specs.Watchdog.{renew_fault};
ghost use Rattle.lr_machine.specs.declared.shown.Found.TheVariants as found;
ghost use Rattle.lr_machine.specs.declared.shown.Shown.TheVariants as shows;
ghost use Rattle.lr_machine.specs.Shown.{found_fault, found_for, renewed_from, shown_fault, shown_of};
ghost use Rattle.lr_machine.specs.World.{hold_key};
ghost use Rattle.lr_clients.specs.Client.{client_of};
ghost use Rattle.lr_clients.specs.Rows.{renewal_in, row_or};

use crate::client::{ClientState, client_id};
use lr_machine::{Found, Shown};
use lr_names::{Name, Owner};
use lr_objects::{Op, Reply};
use lr_waiting::{Phase, RenewFault, WatchKey, WatchKind};
use std::alloc::AllocError;

/// The hold of a client's thread.
pub fn hold_key(client: u32, thread: u32, kind: WatchKind, name: Name) -> WatchKey
    requires { IsThread thread }
    ensures { result ≡ hold_key client thread kind name }
{
    WatchKey {
        owner: Owner::new(client_id(client), thread),
        kind,
        name,
    }
}

impl ClientState {
    /// The client asks for the renewal of a hold, where it has fallen due. It takes no memory.
    pub(crate) fn renew_ask(&mut self, key: &WatchKey, moment: u64) -> Shown
        requires { moment ≤ last_moment }
        ensures shown { let client = client_of self.old in
            result ≡ shown_fault client (renew_fault moment key.now client.session.watchdog) }
        ensures next { let client = client_of self.old in client_of self.new
            ≡ row_or client (client_row (renew_row key.now moment) client) }
    {
        match self.session.renew_ask(key, moment) {
            Ok(_) => Shown::RenewAsked,
            Err(fault) => Shown::No(self.found_for(found_fault(fault))),
        }
    }

    /// The call by which the server is to renew a hold: `None` where the client hasn't asked for
    /// it, and where the server has executed it.
    pub(crate) fn renewal(&self, key: &WatchKey) -> Option<Op>
        ensures { result ≡ renewal_in (client_of self.now) key.now }
    {
        if self.session.is_cut() || self.renewed.get(key).is_some() {
            return None;
        }
        self.session.renewing(key)?;
        Some(self.session.renewal_op(key))
    }

    /// Takes the memory that the reply to a renewal needs. An error changes nothing.
    pub(crate) fn reserve_renewed(&mut self) -> Result<(), AllocError>
        ensures ok { OnOk result (0 < self.new.renewed.room) }
        ensures same { client_of self.new ≡ client_of self.old }
    {
        self.renewed.reserve()
    }

    /// From now on a reply waits for the renewal of a hold. There is the memory for it.
    pub(crate) fn answer_renewal(&mut self, key: &WatchKey, reply: Reply)
        requires { 0 < self.old.renewed.room }
        ensures { client_of self.new ≡ with_renewed key.now (Some reply) (client_of self.old) }
    {
        self.renewed.put(key, reply);
    }

    /// The client takes the reply that waits for the renewal of a hold. It takes no memory.
    pub(crate) fn renew_take(&mut self, key: &WatchKey) -> Shown
        ensures shown { let client = client_of self.old in result
            ≡ shown_of shows.RenewTaken
            (renewed_from key.now (client.renewed key.now) client.session)
            (found_for client found.Renewal) }
        ensures next { let client = client_of self.old in client_of self.new
            ≡ row_or client (take_renewed key.now client) }
    {
        let Some(reply) = self.renewed.get(key) else {
            return Shown::No(self.found_for(Found::Renewal));
        };
        let Some(taken) = self.session.renew_take(key, &reply) else {
            return Shown::No(self.found_for(Found::Renewal));
        };
        self.renewed.remove(key);
        Shown::RenewTaken(taken)
    }

    /// What is found where a client that isn't cut off has nothing.
    pub(crate) fn found_for(&self, nothing: Found) -> Found
        ensures { result ≡ found_for (client_of self.now) nothing }
    {
        if self.session.is_cut() {
            Found::Phase(Phase::Cut)
        } else {
            nothing
        }
    }
}

// What is found where a renewal can't be asked for.
fn found_fault(fault: RenewFault) -> Found
    ensures { result ≡ found_fault fault }
{
    match fault {
        RenewFault::NoWatch => Found::Watch,
        RenewFault::Renewing => Found::Renewing,
        RenewFault::NotDue(_) => Found::Due,
    }
}
