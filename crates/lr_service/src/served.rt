use lr_server::ServerState;

/// The server behind a gate. A pass has it while it has the turn.
#[derive(Drop)]
pub struct Served {
    pub(crate) state: ServerState,
}
