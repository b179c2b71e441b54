ghost use Rattle.std.specs.Prelude.{◌≡◌, ℕ, ◌≤◌, length};
ghost use Rattle.lr_names.specs.Owner.{ThreadOfClient, IsOwner};
ghost use Rattle.lr_objects.specs.declared.access.Access.{Access};
ghost use Rattle.lr_rw.specs.Holds.{access_word, member_text};

use lr_names::Owner;
use lr_objects::Access;
use lr_text::Brief;

// The letter of an access.
fn letter(access: Access) -> &'static [u8]
    ensures word { result.now ≡ access_word access }
    ensures short { length result.now ≡ 1 }
{
    match access {
        Access::Read => b"r",
        Access::Write => b"w",
    }
}

/// The text of an owner's hold, under which both keys have it.
pub(crate) fn member(access: Access, owner: &Owner) -> Brief
    ensures text { result ≡ member_text access owner.now }
    ensures owner { IsOwner owner.now }
{
    let mut text = Brief::new();
    text.push_bytes(letter(access));
    text.push_bytes(b":");
    text.push_bytes(owner.brief().as_slice());
    text
}

/// The text of the write hold of the owner whose hold this is.
pub(crate) fn writer_of(member: &Brief) -> Brief
    ensures { (access : Access) (owner : ThreadOfClient) → member.now ≡ member_text access owner
        → result ≡ member_text Access.Write owner }
{
    let Some((_, rest)) = member.as_slice().split_first() else {
        return Brief::new();
    };
    let mut text = Brief::new();
    text.push_bytes(letter(Access::Write));
    text.push_bytes(rest);
    text
}
