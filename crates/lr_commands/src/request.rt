use crate::channels::Channels;
use crate::look::Look;
use lr_objects::Op;
use lr_text::Text;

/// One request of a connection.
#[derive(Drop)]
pub enum Request {
    /// Run a function on an object.
    Call(Op),
    /// Look at the keys.
    Look(Look),
    /// Add these channels to the connection's, one after another.
    Subscribe(Channels),
    /// Take these channels from the connection's, one after another.
    Unsubscribe(Channels),
    /// Take all channels from the connection's.
    UnsubscribeAll,
    /// Answer, with this text where there is one.
    Ping(Option<Text>),
    /// End the connection.
    Quit,
}
