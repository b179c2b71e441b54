use lr_model::Entry;
use std::collections::LinkedList;

/// What a pass knows of its gate's history, and what it did. Contracts speak of it; no value of it
/// is made.
pub struct View {
    /// The number of the pass, by which entries name it.
    pub caller: u64,
    /// The beginning of the history that the pass has seen.
    pub seen: LinkedList<Entry>,
    /// The entries with the pass's number.
    pub mine: LinkedList<Entry>,
    /// How often the pass looked at the word, by a load or an exchange. The loads by which a pass is
    /// split off or joined don't count.
    pub looks: u64,
    /// The word that the last look gave.
    pub last_word: u64,
    /// The word that the look before that gave.
    pub word_before: u64,
    /// Whether the pass has the turn.
    pub has_turn: bool,
    /// Whether this is the gate's first pass, which splits off and joins the others.
    pub is_first: bool,
    /// Whether the pass was joined, so that nobody has it.
    pub is_spent: bool,
    /// Of the first pass: how many passes were made, the first one counted. Of others 0.
    pub made: u64,
    /// Of the first pass: how many others are out, which were made and not joined yet.
    pub out: u64,
    /// Of the first pass: the number of each pass that was joined, with its entries.
    pub joined: LinkedList<(u64, LinkedList<Entry>)>,
}
