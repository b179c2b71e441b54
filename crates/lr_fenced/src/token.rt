//! The last token of a lock, as a reply tells it.
ghost use Rattle.std.specs.Prelude.{◌≡◌, ◌≤◌, ℕ};
ghost use Rattle.lr_keys.specs.KeySpace.{entry_at};
ghost use Rattle.lr_limits.specs.Limits.{token_limit};
ghost use Rattle.lr_model.specs.Fenced.{reply_with_token};
ghost use Rattle.lr_fenced.specs.Step.{IsTokenAt};

use lr_counter::count_at;
use lr_keys::KeySpace;
use lr_limits::LAST_TOKEN;
use lr_objects::{Integer, Reply};
use lr_text::Brief;

// The last token, which is 0 before the first.
pub(crate) fn last_token(keys: &KeySpace, key: &Brief) -> u64
    ensures token { (token : ℕ) → IsTokenAt (entry_at keys.now key.now) token → result ≡ token }
    ensures within { result ≤ token_limit }
{
    count_at(keys, key).min(LAST_TOKEN)
}

// The reply to a step on the hold of a lock with this token: a grant tells it.
pub(crate) fn with_token(token: u64, reply: Reply) -> Reply
    requires { token ≤ token_limit }
    ensures { result ≡ reply_with_token token reply }
{
    match reply {
        Reply::Granted => Reply::GrantedToken(Integer::new(token)),
        other => other,
    }
}
