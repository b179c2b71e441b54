use lr_names::{Channel, Owner};
use lr_objects::Want;
use lr_waiting::Refusal;
use std::marker::Model;

/// A thread that sleeps, with what it waits for.
#[derive(Clone, Copy)]
pub struct Sleeper {
    /// The channel on which it waits.
    pub channel: Channel,
    /// What it wants.
    pub want: Want,
    /// Who it is to the server.
    pub owner: Owner,
    /// What it knows since its call was refused.
    pub refusal: Refusal,
}

impl Model for Sleeper {
    ghost use Rattle.lr_clients.specs.SleeperValue.{SleeperValue};

    ghost Value = { SleeperValue };

    ghost view = { λ s. record {
      channel = s.channel;
      want = s.want;
      owner = s.owner;
      refusal = s.refusal;
    } };

    ghost inverse = { λ v. record {
      channel = v.channel;
      want = v.want;
      owner = v.owner;
      refusal = v.refusal;
    } };
}
