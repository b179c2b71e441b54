/// Why words are no call. They are tested in this order, and the first that fits is told.
#[derive(Clone, Copy, Debug, PartialEq, Eq)]
pub enum OpFault {
    /// No function has this word.
    NotFunction,
    /// There are too few words or too many, or the count of keys isn't 1.
    WrongArguments,
    /// The name of the object, an owner or an id isn't spelled right.
    BadName,
    /// A number isn't spelled right, or isn't within its limits.
    BadNumber,
}
