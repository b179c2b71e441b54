use crate::conns::Conns;

/// What a message met.
#[derive(Drop)]
pub struct Posted {
    /// How many connections it reached.
    pub reached: u32,
    /// Those that it dropped, since their outboxes were full, in order of their numbers.
    pub dropped: Conns,
}
