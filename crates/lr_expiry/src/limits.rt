/// What a place has that never expires: a number above every moment.
pub const NO_EXPIRY: u64 = u64::MAX;

// How many places there are at most. More bytes than that no memory has.
pub(crate) const MOST_PLACES: usize = 1 << 56;

// How many places the first growth gives.
pub(crate) const FEWEST_PLACES: usize = 8;
