/// The place behind a gate. It has the value while nobody has the turn.
#[derive(Drop)]
pub struct Home<V> {
    pub(crate) value: Option<V>,
}
