ghost use Rattle.std.specs.Prelude.{◌≡◌, ◌↔◌, ◌≤◌, ℕ, IsTrue, IsErr, IfOk};
ghost use Rattle.lr_names.specs.Owner.{IsThread};
ghost use Rattle.lr_machine.specs.Within.{IsClient, IsWithin};
ghost use Rattle.lr_schedule.specs.Spelled.{event_of, AreWithin, IsLimited};

use crate::fault::Outside;
use crate::verb::{ClientVerb, RenewVerb, ThreadVerb};
use lr_limits::{MOST_CLIENTS, MOST_EVENTS, MOST_THREADS};
use lr_machine::{Event, ScheduleLine, ThreadId};
use lr_names::Name;
use lr_objects::{Mode, Want};
use lr_waiting::WatchKind;

/// A client and a thread as a line spells them: they may be outside the limits.
#[derive(Clone, Copy)]
pub struct Who {
    /// The number of the client.
    pub client: u64,
    /// The number of the thread.
    pub thread: u64,
}

/// An event as a line spells it.
#[derive(Clone, Copy)]
pub enum Spelled {
    /// A thread begins a request.
    Begin(Who, Mode, Want),
    /// A thread does something.
    Thread(ThreadVerb, Who),
    /// The client with this number does something. It may be outside the limits.
    Client(ClientVerb, u64),
    /// The clock shows this moment.
    Tick(u64),
    /// Something is done in the renewal of the thread's hold of the lock of this kind and name.
    Renew(RenewVerb, Who, WatchKind, Name),
    /// An operator takes a lock away.
    Force(Name),
    /// It is asked what stands for those that sleep.
    Show,
}

impl Who {
    // The thread of the client: an error exactly outside the limits.
    fn thread_id(&self) -> Result<ThreadId, Outside>
        ensures some { IfOk result (λ id.
            (id.client ≡ self.now.client) × (id.thread ≡ self.now.thread)) }
        ensures within { IfOk result (λ id. IsClient id.client × IsThread id.thread) }
        ensures none { IsErr result → ¬ AreWithin self.now }
    {
        let client = client_id(self.client)?;
        if !is_thread(self.thread) {
            return Err(Outside::Thread(self.thread));
        }
        Ok(ThreadId {
            client,
            thread: self.thread as u32,
        })
    }
}

// The client with this number: an error exactly outside the limits.
fn client_id(number: u64) -> Result<u32, Outside>
    ensures some { IfOk result (λ client. client ≡ number) }
    ensures within { IfOk result IsClient }
    ensures none { IsErr result → ¬ IsClient number }
{
    if !is_client(number) {
        return Err(Outside::Client(number));
    }
    Ok(number as u32)
}

fn is_client(number: u64) -> bool
    ensures { IsTrue result ↔ IsClient number }
{
    1 <= number && number <= u64::from(MOST_CLIENTS)
}

fn is_thread(number: u64) -> bool
    ensures { IsTrue result ↔ IsThread number }
{
    1 <= number && number <= u64::from(MOST_THREADS)
}

impl Spelled {
    /// The event: an error exactly where it names a client or a thread outside the limits.
    pub fn event(&self) -> Result<Event, Outside>
        ensures some { IfOk result (λ event. event ≡ event_of self.now) }
        ensures within { IfOk result IsWithin }
        ensures none { IsErr result → ¬ IsWithin (event_of self.now) }
    {
        match self {
            Spelled::Begin(who, mode, want) => {
                let ThreadId { client, thread } = who.thread_id()?;
                Ok(Event::Begin {
                    client,
                    thread,
                    mode: *mode,
                    want: *want,
                })
            }
            Spelled::Thread(verb, who) => {
                let id = who.thread_id()?;
                Ok(verb.event(id))
            }
            Spelled::Client(verb, number) => {
                let client = client_id(*number)?;
                Ok(verb.event(client))
            }
            Spelled::Tick(moment) => Ok(Event::Tick(*moment)),
            Spelled::Renew(verb, who, kind, name) => {
                let id = who.thread_id()?;
                Ok(verb.event(id, *kind, *name))
            }
            Spelled::Force(name) => Ok(Event::Force(*name)),
            Spelled::Show => Ok(Event::Show),
        }
    }

    /// What a line with this number is that spells the event.
    pub fn limited(&self, number: u64) -> ScheduleLine
        ensures { IsLimited number (event_of self.now) result }
    {
        match self.event() {
            Ok(event) if number <= MOST_EVENTS => ScheduleLine::Event(event),
            _ => ScheduleLine::TooMany,
        }
    }
}
