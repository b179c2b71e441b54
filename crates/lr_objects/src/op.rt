ghost use Rattle.std.specs.Prelude.{◌≡◌};
ghost use Rattle.lr_names.specs.Name.{IsName};
ghost use Rattle.lr_objects.specs.Op.{IsCall, kind_of, name_of, channel_of};

use crate::kinds::Call;
use lr_names::{Channel, Kind, Name};
use std::marker::Model;

/// A call of a function on one object.
#[derive(Clone, Copy, PartialEq, Eq)]
pub struct Op {
    /// The name of the object.
    pub name: Name,
    /// The call, by the kind of the object.
    pub call: Call,
}

impl Model for Op {
    ghost use Rattle.lr_objects.specs.OpValue.{OpValue};

    ghost Value = { OpValue };

    ghost view = { λ v. record { name = v.name; call = v.call } };

    ghost inverse = { λ v. record { name = v.name; call = v.call } };
}

impl Op {
    /// The kind of the object.
    pub fn kind(&self) -> Kind
        ensures { result ≡ kind_of self.now }
    {
        self.call.kind()
    }

    /// The name of the object.
    pub fn name(&self) -> &Name
        ensures value { result.now ≡ name_of self.now }
        ensures call { IsCall self.now }
    {
        self.call.check();
        // What the type of the name says of it.
        let _text = self.name.as_slice();
        &self.name
    }

    /// The channel on which the one who made the call waits.
    pub fn channel(&self) -> Channel
        ensures { result ≡ channel_of self.now }
    {
        match &self.call {
            Call::Fair(call) => Channel::fair(self.name(), &call.owner()),
            _ => Channel::of(self.kind(), self.name()),
        }
    }
}
