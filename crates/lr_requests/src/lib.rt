//! Requests of connections: which frames ask for something, and for what.
#![tactic(auto)]

mod arity;
mod case;
mod channel_list;
mod command;
mod fault;
mod laws;
mod look_command;
mod look_words;
mod parser;
mod places;
mod read;
mod write_command;

pub use arity::Arity;
pub use command::Command;
pub use fault::CommandFault;
pub use laws::{
    a_fault_is_alone, a_fault_is_no_request, a_frame_has_its_words, one_request_is_asked,
};
pub use look_command::{ItemCommand, KeyCommand, LookCommand, RangeCommand};
pub use parser::parse;
pub use write_command::WriteCommand;
