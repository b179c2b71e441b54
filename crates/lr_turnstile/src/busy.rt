/// The gate wasn't entered. It has the word that showed why: an odd one, since another pass has the
/// turn, or one that came in place of the word that was looked at before, since another pass was
/// first.
#[derive(Clone, Copy, Debug, PartialEq, Eq)]
pub struct Busy(pub u64);
