/// What a line of text is.
#[derive(Clone, Copy, Debug)]
pub enum LineKind {
    /// A simple string.
    Plain,
    /// An error.
    Failure,
}

/// What a number stands for.
#[derive(Clone, Copy, Debug)]
pub enum HeadKind {
    /// Itself.
    Number,
    /// The length of a bulk string, in bytes.
    Bulk,
    /// How many items an array has.
    Array,
}

/// Where in a frame the next byte stands.
#[derive(Clone, Copy, Debug)]
pub enum Phase {
    /// At its beginning.
    Begin,
    /// In a line of text.
    Line(LineKind),
    /// Behind the CR of a line of text.
    LineEnd(LineKind),
    /// Where a number begins.
    Head(HeadKind),
    /// Behind a minus.
    Minus(HeadKind),
    /// Behind a digit: whether the number is negative, and its magnitude so far.
    Digits(HeadKind, bool, u64),
    /// Behind the CR of a number.
    DigitsEnd(HeadKind, bool, u64),
    /// In a bulk string of which so many bytes are still to come.
    Body(u64),
    /// Behind the CR of a bulk string.
    BodyEnd,
}
