//! A look at the holds of a lock, which changes nothing. Holds that have expired may stand there
//! still: they don't count.
ghost use Rattle.std.specs.Prelude.{◌≡◌, ℕ, max, Ok, IsTrue};
ghost use Rattle.lr_model.specs.Answer.{Objects, reply_of};
ghost use Rattle.lr_model.specs.Moment.{is_lease};
ghost use Rattle.lr_model.specs.ReadWrite.{ReadWriteLock, live_holds, read, write};
ghost use Rattle.lr_objects.specs.Reply.{blocks};
ghost use Rattle.lr_objects.specs.declared.kinds.Function.TheVariants.{ReadWrite};
ghost use Rattle.lr_objects.specs.declared.read_write.ReadWriteCall.TheVariants.{Take};
ghost use Rattle.lr_objects.specs.declared.read_write.ReadWriteFunction.{ReadWriteFunction};
ghost use Rattle.lr_rw.specs.Holds.{IsLockAt};
ghost use Rattle.lr_rw.specs.Run.{is_held, read_write_op};
ghost use Rattle.lr_rw.specs.Stands.{ReadWriteLocksStand};

use crate::call::is_held_at;
use crate::holds::last_deadline;
use crate::lock_keys::LockKeys;
use crate::member::member;
use crate::steps::writer_beside;
use lr_keys::KeySpace;
use lr_names::{Name, Owner};
use lr_objects::Access;

// Whether a deadline, where there is one, lies beyond the moment, or beyond that of the keys where
// that is later.
fn lasts(keys: &KeySpace, deadline: Option<u64>, moment: u64) -> bool
    ensures { result ≡ is_held (max keys.now.moment moment) (Ok deadline) }
{
    match deadline {
        Some(deadline) => deadline > keys.moment().max(moment),
        None => false,
    }
}

// Whether an owner that wants to read would wait: another writes, beyond the moment.
fn waits_to_read(keys: &KeySpace, lock: &LockKeys, moment: u64, owner: &Owner) -> bool
    ensures { let m = max keys.now.moment moment in (holds : ReadWriteLock) (lease : ℕ)
        (function : ReadWriteFunction)
        → IsLockAt keys.now lock.now.counts lock.now.deadlines holds
        → result ≡ blocks (read m owner.now lease (live_holds m holds)).reply
        (ReadWrite function) }
{
    lasts(keys, writer_beside(keys, lock, owner), moment)
}

// Whether an owner that wants to write would wait: it doesn't write, and some hold lasts beyond the
// moment. The hold that ends last tells.
fn waits_to_write(keys: &KeySpace, lock: &LockKeys, moment: u64, owner: &Owner) -> bool
    ensures { let m = max keys.now.moment moment in (holds : ReadWriteLock) (lease : ℕ)
        (function : ReadWriteFunction)
        → IsLockAt keys.now lock.now.counts lock.now.deadlines holds
        → result ≡ blocks (write m owner.now lease (live_holds m holds)).reply
        (ReadWrite function) }
{
    if is_held_at(keys, lock, &member(Access::Write, owner), moment) {
        return false;
    }
    lasts(keys, last_deadline(keys, lock), moment)
}

/// Whether an owner that wants this access would wait at a moment in milliseconds, or at that of the
/// keys where that is later. To read it waits while another writes. To write it waits while
/// anybody holds the lock, unless it writes already. It is so for each lease of 1 to
/// 86,400,000,000 milliseconds.
pub fn would_wait(keys: &KeySpace, moment: u64, name: &Name, access: Access, owner: &Owner) -> bool
    ensures { let m = max keys.now.moment moment in (objects : Objects) (lease : ℕ)
        (function : ReadWriteFunction) → ReadWriteLocksStand keys.now objects
        → IsTrue (is_lease lease)
        → result ≡ blocks
        (reply_of objects m (read_write_op name.now (Take access owner.now lease)))
        (ReadWrite function) }
{
    // What the type of the name says of it.
    let _text = name.as_slice();
    let lock = LockKeys::of(name);
    match access {
        Access::Read => waits_to_read(keys, &lock, moment, owner),
        Access::Write => waits_to_write(keys, &lock, moment, owner),
    }
}
