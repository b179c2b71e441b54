ghost use Rattle.std.specs.Prelude.{◌≡◌, ◌≢◌, ◌∷◌, ℕ, List, IsErr, IsNone, IfOk, IfSome};
ghost use Rattle.lr_text.specs.WordTable.{with_word};
ghost use Rattle.lr_waiting.specs.declared.watch.WatchKind.{WatchKind};
ghost use Rattle.lr_machine.specs.EventText.{watch_word};

use crate::fault::Expected;
use crate::reader::Reader;
use lr_waiting::WatchKind;

/// All kinds of a hold that is watched.
pub const WATCH_KINDS: [WatchKind; 5] = [
    WatchKind::Lock,
    WatchKind::Fair,
    WatchKind::Fenced,
    WatchKind::Read,
    WatchKind::Write,
];

/// The word of a kind.
pub fn watch_word(kind: WatchKind) -> &'static [u8]
    ensures { result.now ≡ watch_word kind }
{
    match kind {
        WatchKind::Lock => b"lock",
        WatchKind::Fair => b"fair",
        WatchKind::Fenced => b"fenced",
        WatchKind::Read => b"read",
        WatchKind::Write => b"write",
    }
}

/// Reads the kind of a hold that is watched.
pub fn read_kind(reader: &mut Reader<'_>) -> Result<WatchKind, Expected>
    ensures some { IfOk result (λ kind. reader.old ≡ watch_word kind ∷ reader.new) }
    ensures none { IsErr result → (kind : WatchKind) (rest : List (List ℕ))
        → reader.old ≢ watch_word kind ∷ rest }
{
    let word = reader.word(Expected::Kind)?;
    kind_of_word(word).ok_or(Expected::Kind)
}

// The kind with this word: `None` exactly where no kind has it.
fn kind_of_word(word: &[u8]) -> Option<WatchKind>
    ensures some { IfSome result (λ kind. word.now ≡ watch_word kind) }
    ensures none { IsNone result → (kind : WatchKind) → word.now ≢ watch_word kind }
{
    search(word)
}

fn search(word: &[u8]) -> Option<WatchKind>
    ensures { result ≡ with_word watch_word WATCH_KINDS word.now }
{
    WATCH_KINDS
        .iter()
        .copied()
        .find(|kind| watch_word(*kind) == word)
}
