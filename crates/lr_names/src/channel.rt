ghost use Rattle.std.specs.Prelude.{◌≡◌, ◌≢◌, ◌+◌, ◌≤◌, ℕ, List, ◌∷◌, ◌++◌, length, codes, Option, None, Some, false, IsErr, IsNone, IfOk, IfSome, OnOk, OnErr};
ghost use Rattle.std.specs.Option.{ForSome};
ghost use Rattle.lr_names.specs.Channel.{ChannelOf, IsChannel, is_fair, channel_text, owner_part, channel_wakes};
ghost use Rattle.lr_names.specs.Name.{IsName};
ghost use Rattle.lr_names.specs.Owner.{IsOwner};

use crate::kind::{Kind, Wakes};
use crate::name::{Name, read_name};
use crate::owner::{Owner, read_owner};
use lr_text::{Brief, Text, split_once};
use std::alloc::{AllocError, Global};
use std::marker::Model;
use std::{fmt, str};

/// The channel of an object. Only that of a fair lock names an owner.
#[derive(Clone, Copy, PartialEq, Eq, Hash)]
pub struct Channel {
    kind: Kind,
    name: Name,
    owner: Option<Owner>,
}

impl Model for Channel {
    ghost use Rattle.std.specs.Prelude.{◌≡◌, is_some};
    ghost use Rattle.lr_names.specs.Channel.{ChannelOf, is_fair};

    ghost Value = { ChannelOf };

    ghost view = { λ c. record { kind = c.kind; name = c.name; owner = c.owner } };

    ghost invariant = { λ c. is_some c.owner ≡ is_fair c.kind };

    ghost inverse = { λ v. record { kind = v.kind; name = v.name; owner = v.owner } };
}

/// Why a text is no channel.
#[derive(Clone, Copy, Debug, PartialEq, Eq)]
pub enum ChannelFault {
    /// It isn't `ch:`, the word of a kind, a colon and a name, with a colon and an owner behind
    /// them exactly for a fair lock.
    BadChannel,
}

impl Channel {
    /// The channel of an object that isn't a fair lock.
    pub fn of(kind: Kind, name: &Name) -> Channel
        requires { is_fair kind ≡ false }
        ensures { result ≡ record { kind = kind; name = name.now; owner = None } }
    {
        Channel {
            kind,
            name: *name,
            owner: None,
        }
    }

    /// The channel of an owner that waits for a fair lock.
    pub fn fair(name: &Name, owner: &Owner) -> Channel
        ensures { result ≡ record { kind = Kind.Fair; name = name.now; owner = Some owner.now } }
    {
        Channel {
            kind: Kind::Fair,
            name: *name,
            owner: Some(*owner),
        }
    }

    /// Reads a channel: `BadChannel` exactly where the text is that of none.
    pub fn parse(text: &[u8]) -> Result<Channel, ChannelFault>
        ensures text { IfOk result (λ channel. text.now ≡ channel_text channel) }
        ensures channel { IfOk result IsChannel }
        ensures bad { IsErr result → (channel : ChannelOf) → IsChannel channel
            → text.now ≢ channel_text channel }
    {
        read_channel(text).ok_or(ChannelFault::BadChannel)
    }

    /// The kind of the object.
    pub fn kind(&self) -> Kind
        ensures { result ≡ self.now.kind }
    {
        self.kind
    }

    /// The name of the object.
    pub fn name(&self) -> &Name
        ensures value { result.now ≡ self.now.name }
        ensures name { IsName result.now }
    {
        let _text = self.name.as_slice();
        &self.name
    }

    /// The owner that waits for a fair lock: `None` for every other kind.
    pub fn owner(&self) -> Option<Owner>
        ensures { result ≡ self.now.owner }
    {
        self.owner
    }

    /// How many of a client's waiting threads a message on this channel wakes.
    pub fn wakes(&self) -> Wakes
        ensures { result ≡ channel_wakes self.now.kind }
    {
        self.kind.wakes()
    }

    /// The text of the channel, kept in place. No other channel has it.
    pub fn brief(&self) -> Brief
        ensures text { result ≡ channel_text self.now }
        ensures channel { IsChannel self.now }
        ensures alone { (other : ChannelOf) → IsChannel other → result ≡ channel_text other
            → self.now ≡ other }
    {
        self.written()
    }

    /// The text of the channel.
    pub fn text(&self, alloc: Global) -> Result<Text, AllocError>
        ensures text { IfOk result (λ text. text ≡ channel_text self.now) }
        ensures channel { IsChannel self.now }
    {
        Text::of(alloc, self.written().as_slice())
    }

    fn written(&self) -> Brief
        ensures text { result ≡ channel_text self.now }
        ensures channel { IsChannel self.now }
    {
        let mut text = Brief::new();
        text.push_bytes(b"ch:");
        text.push_bytes(self.kind.word());
        text.push_bytes(b":");
        text.push_bytes(self.name.as_slice());
        push_owner(&mut text, &self.owner);
        text
    }
}

fn push_owner(text: &mut Brief, owner: &Option<Owner>)
    requires { length text.old ≤ 80 }
    ensures text { text.new ≡ text.old ++ owner_part owner.now }
    ensures owner { ForSome owner.now IsOwner }
{
    if let Some(owner) = owner {
        text.push_bytes(b":");
        text.push_bytes(owner.brief().as_slice());
    }
}

fn read_channel(text: &[u8]) -> Option<Channel>
    ensures text { IfSome result (λ channel. text.now ≡ channel_text channel) }
    ensures channel { IfSome result IsChannel }
    ensures bad { IsNone result → (channel : ChannelOf) → IsChannel channel
        → text.now ≢ channel_text channel }
{
    let (word, object) = split_once(after_tag(text)?, b':')?;
    read_object(Kind::of_word(word)?, object)
}

fn after_tag(text: &[u8]) -> Option<&[u8]>
    ensures some { IfSome result (λ rest. text.now ≡ codes "ch:" ++ rest.now) }
    ensures none { IsNone result → (rest : List ℕ) → text.now ≢ codes "ch:" ++ rest }
{
    match text {
        [b'c', b'h', b':', rest @ ..] => Some(rest),
        _ => None,
    }
}

fn read_object(kind: Kind, text: &[u8]) -> Option<Channel>
    ensures text { IfSome result (λ channel. text.now ≡ channel.name ++ owner_part channel.owner) }
    ensures kind { IfSome result (λ channel. channel.kind ≡ kind) }
    ensures channel { IfSome result IsChannel }
    ensures bad { IsNone result → (channel : ChannelOf) → IsChannel channel
        → channel.kind ≡ kind → text.now ≢ channel.name ++ owner_part channel.owner }
{
    match kind {
        Kind::Fair => read_fair(text),
        _ => {
            let name = read_name(text)?;
            Some(Channel::of(kind, &name))
        }
    }
}

fn read_fair(text: &[u8]) -> Option<Channel>
    ensures text { IfSome result (λ channel. text.now ≡ channel.name ++ owner_part channel.owner) }
    ensures kind { IfSome result (λ channel. channel.kind ≡ Kind.Fair) }
    ensures channel { IfSome result IsChannel }
    ensures bad { IsNone result → (channel : ChannelOf) → IsChannel channel
        → channel.kind ≡ Kind.Fair → text.now ≢ channel.name ++ owner_part channel.owner }
{
    let (name, owner) = split_once(text, b':')?;
    let name = read_name(name)?;
    let owner = read_owner(owner)?;
    Some(Channel::fair(&name, &owner))
}

impl fmt::Display for Channel {
    ghost output = { λ channel. Some (channel_text channel) };

    fn fmt<W: fmt::Write>(&self, f: &mut fmt::Formatter<W>) -> fmt::Result {
        match str::from_utf8(self.brief().as_slice()) {
            Ok(text) => f.write_str(text),
            Err(_) => Err(fmt::Error),
        }
    }
}

impl fmt::Debug for Channel {
    fn fmt<W: fmt::Write>(&self, f: &mut fmt::Formatter<W>) -> fmt::Result {
        fmt::Display::fmt(self, f)
    }
}
