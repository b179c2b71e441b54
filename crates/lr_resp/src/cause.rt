/// Why a stream can't go on to be frames.
///
/// Where more than one fits a byte, the first of them is told.
#[derive(Clone, Copy, Debug, PartialEq, Eq)]
pub enum Cause {
    /// The byte makes a number pass its limit, or is one too many of a line or of a frame.
    TooLong,
    /// The byte is `*` inside four arrays.
    TooDeep,
    /// A frame begins here, and the byte is none of `+`, `-`, `:`, `$` and `*`.
    BadType,
    /// The byte stands in a number or right after it, and isn't allowed there.
    BadNumber,
    /// The byte stands where CR or LF must be, or is a LF inside a line.
    BadEnd,
}
