// A set of so many members or fewer is a list in order, which takes less memory than a table.
pub(crate) const FEW_MEMBERS: usize = 8;

// How many places a tournament has at most. So many members no memory has.
pub(crate) const MOST_PLACES: usize = 1 << 31;
