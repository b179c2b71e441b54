use lr_names::Channel;
use lr_objects::Op;
use std::marker::Model;

/// What one step of the server did.
#[derive(Clone, Copy, PartialEq, Eq)]
pub enum Act {
    /// It ran a function.
    Call(Op),
    /// It added a channel to the connection's.
    Subscribe(Channel),
    /// It took a channel from the connection's.
    Unsubscribe(Channel),
    /// It opened the connection.
    Open,
    /// It closed the connection.
    Close,
    /// It handed out the first items of the connection's outbox, at most so many.
    Drain(u32),
}

/// One step of the server.
#[derive(Clone, Copy, PartialEq, Eq)]
pub struct Entry {
    /// When it was made, in milliseconds.
    pub moment: u64,
    /// Who asked for it.
    pub caller: u64,
    /// The connection that it was made for.
    pub conn: u32,
    /// What it did.
    pub act: Act,
}

impl Model for Entry {
    ghost use Rattle.lr_model.specs.Values.{EntryValue};

    ghost Value = { EntryValue };

    ghost view = { λ v. record {
      moment = v.moment;
      caller = v.caller;
      conn = v.conn;
      act = v.act;
    } };

    ghost inverse = { λ v. record {
      moment = v.moment;
      caller = v.caller;
      conn = v.conn;
      act = v.act;
    } };
}
