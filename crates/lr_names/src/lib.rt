//! Names, owners, channels and keys of the objects, with their texts.
#![tactic(auto)]

mod channel;
mod id;
mod kind;
mod name;
mod owner;
mod part;
mod post;

pub use channel::{Channel, ChannelFault};
pub use id::{check_id, id_brief, read_id};
pub use kind::{Kind, Wakes};
pub use name::{Name, NameFault};
pub use owner::{Owner, OwnerFault};
pub use part::{Part, key};
pub use post::{Due, Post, Push};
