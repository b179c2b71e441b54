ghost use Rattle.std.specs.Prelude.{◌≡◌, ◌≢◌, ◌∷◌, ◌↔◌, ℕ, List, decimal, IsErr, IsNone, IfOk, IfSome, IsTrue};
ghost use Rattle.lr_objects.specs.declared.want.Mode.{Mode};
ghost use Rattle.lr_objects.specs.Want.{mode_word};
ghost use Rattle.lr_waiting.specs.Begin.{FitsMode};
ghost use Rattle.lr_schedule.specs.Spelled.{IsMode, IsWait};

use crate::fault::Expected;
use crate::reader::Reader;
use lr_limits::LONGEST_LEASE;
use lr_objects::{Function, Mode};
use lr_text::read_number;
use lr_waiting::waits;

/// Reads how long a request may wait.
pub fn read_mode(reader: &mut Reader<'_>) -> Result<Mode, Expected>
    ensures some { IfOk result (λ mode. reader.old ≡ mode_word mode ∷ reader.new) }
    ensures mode { IfOk result IsMode }
    ensures none { IsErr result → (mode : Mode) (rest : List (List ℕ)) → IsMode mode
        → reader.old ≢ mode_word mode ∷ rest }
{
    let word = reader.word(Expected::Mode)?;
    mode_of_word(word).ok_or(Expected::Mode)
}

fn mode_of_word(word: &[u8]) -> Option<Mode>
    ensures some { IfSome result (λ mode. word.now ≡ mode_word mode) }
    ensures mode { IfSome result IsMode }
    ensures none { IsNone result → (mode : Mode) → IsMode mode → word.now ≢ mode_word mode }
{
    if word == b"once".as_slice() {
        return Some(Mode::Once);
    }
    if word == b"long".as_slice() {
        return Some(Mode::Long);
    }
    let millis = read_wait(word)?;
    Some(Mode::For(millis))
}

// So many milliseconds as a request can wait.
fn read_wait(word: &[u8]) -> Option<u64>
    ensures some { IfSome result (λ millis. word.now ≡ decimal millis) }
    ensures wait { IfSome result IsWait }
    ensures none { IsNone result → (millis : ℕ) → IsWait millis → word.now ≢ decimal millis }
{
    let millis = read_number(word)?;
    if !is_wait(millis) {
        return None;
    }
    Some(millis)
}

// The longest wait is as long as the longest lease.
fn is_wait(millis: u64) -> bool
    ensures { IsTrue result ↔ IsWait millis }
{
    1 <= millis && millis <= LONGEST_LEASE
}

/// Whether a request with this mode may be for the function: one that waits, however long, is for a
/// function with which one waits.
pub fn fits_mode(mode: Mode, function: Function) -> bool
    requires { IsMode mode }
    ensures { IsTrue result ↔ FitsMode mode function }
{
    match mode {
        Mode::Once => true,
        Mode::For(_) | Mode::Long => waits(function),
    }
}
