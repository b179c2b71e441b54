use lr_names::Channel;

/// What a client keeps of a channel on which its threads wait. Its threads share one subscription,
/// and a message goes to this entry and not to one of them. The numbers of orders, acknowledgements
/// and messages go on from 2^64 - 1 to 0.
#[derive(Clone, Copy, Debug, PartialEq, Eq)]
pub struct LatchEntry {
    /// How many orders to subscribe were made.
    pub sent: u64,
    /// How many of these the server has acknowledged.
    pub acknowledged: u64,
    /// How many threads wait on the channel.
    pub registered: u64,
    /// How many of them may ask once more: at most as many as are registered.
    pub permits: u64,
    /// How many messages came that wake all who wait.
    pub broadcast: u64,
}

/// What a client has to tell the server: to subscribe to a channel, or to leave it.
#[derive(Clone, Copy, Debug, PartialEq, Eq)]
pub struct Order {
    /// Whether it is to subscribe.
    pub subscribe: bool,
    /// The channel.
    pub channel: Channel,
}

/// What a thread finds that looks at the entry before it sleeps.
#[derive(Clone, Copy, Debug, PartialEq, Eq)]
pub enum Checked {
    /// A permit, which it has taken.
    Permit,
    /// A message that wakes all has come since it asked.
    Broadcast,
    /// Its due moment has come.
    Timer,
    /// Nothing, so that it sleeps.
    Sleep,
}

/// What a thread finds that is woken.
#[derive(Clone, Copy, Debug, PartialEq, Eq)]
pub enum Woken {
    /// A permit, which it has taken.
    Permit,
    /// A message that wakes all has come since it asked.
    Broadcast,
    /// Nothing: it sleeps on.
    NotYet,
}
