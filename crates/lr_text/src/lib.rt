//! Numbers, words and short texts as schedules, keys and channels spell them.
#![tactic(auto)]

mod items;
mod number;
mod short_text;
mod text;
mod words;

pub use items::Items;
use lr_limits::BRIEF_BYTES;
pub use number::{read_number, write_number};
pub use short_text::ShortText;
pub use text::Text;
pub use words::{Words, split_once};

/// A list of at most [`BRIEF_BYTES`] bytes of fixed size, copied without memory: a key, a field, an
/// owner's text.
pub type Brief = ShortText<BRIEF_BYTES>;
