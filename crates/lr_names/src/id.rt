ghost use Rattle.std.specs.Prelude.{◌≡◌, ◌≢◌, ◌↔◌, ◌<◌, ℕ, List, length, All, IsTrue, IsNone, IfSome};
ghost use Rattle.lr_names.specs.Owner.{IsId, id_text};

use lr_text::Brief;
use uuid::Uuid;

/// The length of an id's text, in bytes.
const ID_BYTES: usize = 36;

/// Reads the id of a client or a permit, in hyphenated lower-case form: `None` exactly where the
/// text is that of no id.
pub fn read_id(text: &[u8]) -> Option<Uuid>
    ensures text { IfSome result (λ id. text.now ≡ id_text id) }
    ensures id { IfSome result IsId }
    ensures none { IsNone result → (id : List ℕ) → IsId id → text.now ≢ id_text id }
{
    let id = Uuid::try_parse_ascii(text).ok()?;
    // Other forms of an id are parsed too.
    if !is_written(&id, text) {
        return None;
    }
    check_id(&id);
    Some(id)
}

fn is_written(id: &Uuid, text: &[u8]) -> bool
    ensures { IsTrue result ↔ (text.now ≡ id_text id.now) }
{
    id_brief(id).as_slice() == text
}

/// The text of an id: its hyphenated lower-case form, 36 bytes.
pub fn id_brief(id: &Uuid) -> Brief
    ensures text { result ≡ id_text id.now }
    ensures long { length result ≡ 36 }
    ensures id { IsId id.now }
{
    check_id(id);
    written(id)
}

fn written(id: &Uuid) -> Brief
    ensures { result ≡ id_text id.now }
{
    let mut buffer = [0; ID_BYTES];
    let mut text = Brief::new();
    text.push_bytes(id.hyphenated().encode_lower(&mut buffer).as_bytes());
    text
}

/// What the type of an id says of it: nothing is done here.
pub fn check_id(id: &Uuid)
    ensures { IsId id.now }
{
    id_fits(id.as_bytes());
}

// What the type of an id says, which no clause can say of an array.
fn id_fits(id: &[u8; 16])
    ensures { IsId id.now }
{
    bytes_fit(id.as_slice());
}

fn bytes_fit(bytes: &[u8])
    ensures { All (λ b. b < 256) bytes.now }
{}
