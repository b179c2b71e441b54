//! Calls of functions as the words of an FCALL request: how they are written and read.
#![tactic(auto)]

mod call;
mod fault;
mod frame;
mod given;
mod laws;
mod read;
mod said;
mod sentence;
mod shape;
mod words;

pub use call::{read_call, read_op};
pub use fault::OpFault;
pub use frame::call_frame;
pub use given::Given;
pub use laws::{a_fault_is_alone, a_fault_is_no_call, words_are_of_one_call};
pub use said::Said;
pub use shape::Shape;
pub use words::Words;
