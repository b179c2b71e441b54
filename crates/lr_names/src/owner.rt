ghost use Rattle.std.specs.Prelude.{◌≡◌, ◌≢◌, ◌↔◌, ◌<◌, ◌≤◌, ℕ, List, length, All, decimal, Some, IsTrue, IsErr, IsNone, IfOk, IfSome};
ghost use Rattle.lr_names.specs.Owner.{ThreadOfClient, IsThread, IsId, IsOwner, id_text, owner_text};

use crate::id::{check_id, id_brief, read_id};
use itoa::Buffer;
use lr_limits::MOST_THREADS;
use lr_text::{Brief, read_number, split_once};
use std::marker::Model;
use std::{fmt, str};
use uuid::Uuid;

/// A thread of a client. Threads are numbered from 1 to 256.
#[derive(Clone, Copy, PartialEq, Eq, Hash)]
pub struct Owner {
    client: Uuid,
    thread: u32,
}

impl Model for Owner {
    ghost use Rattle.lr_names.specs.Owner.{ThreadOfClient, IsThread};

    ghost Value = { ThreadOfClient };

    ghost view = { λ o. record { client = o.client; thread = o.thread } };

    ghost invariant = { λ o. IsThread o.thread };

    ghost inverse = { λ v. record { client = v.client; thread = v.thread } };
}

/// Why a text is no owner.
#[derive(Clone, Copy, Debug, PartialEq, Eq)]
pub enum OwnerFault {
    /// It isn't an id in hyphenated lower-case form, a colon and a number from 1 to 256.
    BadOwner,
}

impl Owner {
    /// A thread of this client, from 1 to 256.
    pub fn new(client: Uuid, thread: u32) -> Owner
        requires { IsThread thread }
        ensures { result ≡ record { client = client; thread = thread } }
    {
        Owner { client, thread }
    }

    /// Reads an owner: `BadOwner` exactly where the text is that of none.
    pub fn parse(text: &[u8]) -> Result<Owner, OwnerFault>
        ensures text { IfOk result (λ owner. text.now ≡ owner_text owner) }
        ensures owner { IfOk result IsOwner }
        ensures bad { IsErr result → (owner : ThreadOfClient) → IsOwner owner
            → text.now ≢ owner_text owner }
    {
        read_owner(text).ok_or(OwnerFault::BadOwner)
    }

    /// The id of the client.
    pub fn client(&self) -> Uuid
        ensures value { result ≡ self.now.client }
        ensures owner { IsOwner self.now }
    {
        check_id(&self.client);
        self.client
    }

    /// The number of the thread.
    pub fn thread(&self) -> u32
        ensures value { result ≡ self.now.thread }
        ensures range { IsThread result }
    {
        self.thread
    }

    /// The text of the owner: its id, a colon and its thread, at most 40 bytes. No other owner has
    /// it.
    pub fn brief(&self) -> Brief
        ensures text { result ≡ owner_text self.now }
        ensures short { length result ≤ 40 }
        ensures owner { IsOwner self.now }
        ensures alone { (other : ThreadOfClient) → IsOwner other → result ≡ owner_text other
            → self.now ≡ other }
    {
        self.written()
    }

    fn written(&self) -> Brief
        ensures text { result ≡ owner_text self.now }
        ensures owner { IsOwner self.now }
    {
        let mut digits = Buffer::new();
        let mut text = id_brief(&self.client());
        text.push_bytes(b":");
        text.push_bytes(digits.format(self.thread()).as_bytes());
        text
    }
}

pub(crate) fn read_owner(text: &[u8]) -> Option<Owner>
    ensures text { IfSome result (λ owner. text.now ≡ owner_text owner) }
    ensures owner { IfSome result IsOwner }
    ensures bad { IsNone result → (owner : ThreadOfClient) → IsOwner owner
        → text.now ≢ owner_text owner }
{
    let (id, thread) = split_once(text, b':')?;
    Some(Owner {
        client: read_id(id)?,
        thread: read_thread(thread)?,
    })
}

fn read_thread(text: &[u8]) -> Option<u32>
    ensures text { IfSome result (λ thread. text.now ≡ decimal thread) }
    ensures range { IfSome result IsThread }
    ensures none { IsNone result → (thread : ℕ) → IsThread thread → text.now ≢ decimal thread }
{
    let thread = read_number(text)?;
    if !is_thread(thread) {
        return None;
    }
    Some(thread as u32)
}

fn is_thread(number: u64) -> bool
    ensures { IsTrue result ↔ IsThread number }
{
    1 <= number && number <= u64::from(MOST_THREADS)
}

impl fmt::Display for Owner {
    ghost output = { λ owner. Some (owner_text owner) };

    fn fmt<W: fmt::Write>(&self, f: &mut fmt::Formatter<W>) -> fmt::Result {
        match str::from_utf8(self.brief().as_slice()) {
            Ok(text) => f.write_str(text),
            Err(_) => Err(fmt::Error),
        }
    }
}

impl fmt::Debug for Owner {
    fn fmt<W: fmt::Write>(&self, f: &mut fmt::Formatter<W>) -> fmt::Result {
        fmt::Display::fmt(self, f)
    }
}
