/// The kinds of values that a key may hold.
#[derive(Clone, Copy, Debug, PartialEq, Eq)]
pub enum ValueKind {
    /// Fields with a number each.
    Hash,
    /// Items in an order.
    List,
    /// Members with a score each.
    Zset,
    /// One number.
    Counter,
}
