use lr_names::Owner;

/// A hold of a reentrant lock.
#[derive(Clone, Copy, PartialEq, Eq)]
pub struct Hold {
    /// Who holds it.
    pub owner: Owner,
    /// How many times, at least 1.
    pub count: u64,
    /// Until when, in milliseconds: at that moment it is gone.
    pub deadline: u64,
}
