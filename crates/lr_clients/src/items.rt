//! What the server sends a client.
ghost use Rattle.std.specs.Prelude.{◌≡◌, ◌≤◌, false, Some, Ok, OnOk};
ghost use Rattle.lr_limits.specs.Limits.{thread_limit};
ghost use Rattle.lr_waiting.specs.Client.{client_row};
ghost use Rattle.lr_waiting.specs.Session.{pushed};
ghost use Rattle.lr_machine.specs.Shown.{shown_item};
ghost use Rattle.lr_clients.specs.Client.{client_of};
ghost use Rattle.lr_clients.specs.Items.{AreFew, shown_pushed};

use crate::client::ClientState;
use lr_machine::Shown;
use lr_names::Push;
use lr_session::Pushed;
use std::alloc::AllocError;

impl ClientState {
    /// Takes the memory that the next item needs. An error changes nothing.
    pub(crate) fn reserve(&mut self) -> Result<(), AllocError>
        ensures ok { OnOk result (thread_limit ≤ self.new.session.room) }
        ensures same { client_of self.new ≡ client_of self.old }
        ensures enough { thread_limit ≤ self.old.session.room → result ≡ Ok tt }
    {
        self.session.reserve()
    }

    /// A client that isn't cut off takes an item, for which it has the memory.
    pub(crate) fn push(&mut self, item: &Push) -> Shown
        requires uncut { (client_of self.old).session.is_cut ≡ false }
        requires room { thread_limit ≤ self.old.session.room }
        ensures shown { result ≡ shown_item (client_of self.old).session item.now }
        ensures next { Some (client_of self.new)
            ≡ client_row (λ session. Some (pushed item.now session)) (client_of self.old) }
    {
        shown_pushed(&self.session.push(item).unwrap())
    }
}

// What is shown of an item that was taken.
fn shown_pushed(told: &Pushed) -> Shown
    requires { AreFew told.now }
    ensures { result ≡ shown_pushed told.now }
{
    match told {
        Pushed::Acked(channel, asks) => Shown::Acknowledged(*channel, asks.len() as u32),
        Pushed::Unacked(channel) => Shown::Left(*channel),
        Pushed::Message(channel, number) => Shown::Delivered(*channel, *number),
    }
}
