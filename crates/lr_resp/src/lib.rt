//! Frames of RESP2, the wire form of Redis: what they are, how they are written, and how they are
//! read from a stream that comes in pieces.
#![tactic(auto)]

mod cause;
mod decoder;
mod frame;
mod laws;
mod limits;
mod numbers;
mod open_array;
mod phase;
mod progress;
mod scanner;
mod writer;

pub use cause::Cause;
pub use decoder::{Decoded, Decoder};
pub use frame::{Frame, Frames};
pub use laws::{
    a_fault_has_its_cause, a_fault_is_first, a_fault_stays, a_front_is_part, a_part_begins_a_frame,
    frames_come_in_order, one_frame_is_spelled, pieces_do_not_matter, what_is_read_is_spelled,
    what_is_spelled_is_read,
};
pub use limits::{
    ARRAY_ITEMS, ARRAYS_DEEP, BULK_BYTES, FRAME_BYTES, LINE_BYTES, WRITTEN_BYTES, WRITTEN_ITEMS,
    limits_are_as_defined,
};
pub use writer::encode;
