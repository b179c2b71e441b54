use crate::served::Served;
use lr_turnstile::Gate;

/// A server that many threads call, each with a pass of its own.
#[derive(Drop)]
pub struct Service {
    pub(crate) gate: Gate<Served>,
}
