use lr_names::Name;
use lr_objects::{Mode, Want};
use lr_waiting::WatchKind;

/// What happens next in a schedule. Clients are numbered from 1 to 64, and threads of a client from 1
/// to 256.
#[derive(Clone, Copy, PartialEq, Eq)]
pub enum Event {
    /// A thread begins a request.
    Begin {
        /// The client.
        client: u32,
        /// The thread.
        thread: u32,
        /// How long the request may wait.
        mode: Mode,
        /// What the thread wants.
        want: Want,
    },
    /// The thread's call is sent.
    Ask {
        /// The client.
        client: u32,
        /// The thread.
        thread: u32,
    },
    /// The server executes the thread's call.
    Exec {
        /// The client.
        client: u32,
        /// The thread.
        thread: u32,
    },
    /// The thread takes the reply.
    Take {
        /// The client.
        client: u32,
        /// The thread.
        thread: u32,
    },
    /// The thread, whose call was refused, looks whether it is to sleep.
    Check {
        /// The client.
        client: u32,
        /// The thread.
        thread: u32,
    },
    /// The sleeping thread is woken, where there is a permit or a message.
    Wake {
        /// The client.
        client: u32,
        /// The thread.
        thread: u32,
    },
    /// The timer of the sleeping thread fires.
    Fire {
        /// The client.
        client: u32,
        /// The thread.
        thread: u32,
    },
    /// The waiting thread gives up.
    Quit {
        /// The client.
        client: u32,
        /// The thread.
        thread: u32,
    },
    /// The server gets the oldest order of a client: to subscribe to a channel, or to leave it.
    Sub {
        /// The client.
        client: u32,
    },
    /// A client takes the oldest item that the server has sent it.
    Push {
        /// The client.
        client: u32,
    },
    /// The clock shows this moment, in milliseconds.
    Tick(u64),
    /// A client asks for the renewal of a hold that it watches and that has fallen due.
    RenewAsk {
        /// The client.
        client: u32,
        /// The thread that holds it.
        thread: u32,
        /// The kind of lock.
        kind: WatchKind,
        /// The lock.
        name: Name,
    },
    /// The server executes the renewal of a hold.
    RenewExec {
        /// The client.
        client: u32,
        /// The thread that holds it.
        thread: u32,
        /// The kind of lock.
        kind: WatchKind,
        /// The lock.
        name: Name,
    },
    /// The client takes the reply to the renewal of a hold.
    RenewTake {
        /// The client.
        client: u32,
        /// The thread that holds it.
        thread: u32,
        /// The kind of lock.
        kind: WatchKind,
        /// The lock.
        name: Name,
    },
    /// An operator takes a lock away from whoever holds it.
    Force(Name),
    /// A client is cut off: its two connections are closed, and what it knew is lost.
    Cut {
        /// The client.
        client: u32,
    },
    /// It is asked what stands for each sleeping thread.
    Show,
}
