use lr_names::Owner;
use lr_objects::Access;

/// A hold of a read-write lock.
#[derive(Clone, Copy, PartialEq, Eq)]
pub struct ReadWriteHold {
    /// Who holds it.
    pub owner: Owner,
    /// Whether to read or to write.
    pub access: Access,
    /// How many times, at least 1.
    pub count: u64,
    /// Until when, in milliseconds: at that moment it is gone.
    pub deadline: u64,
}
