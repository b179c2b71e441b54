//! How a message is put into outboxes.
ghost use Rattle.std.specs.Prelude.{◌≡◌, ℕ, ◌<◌, ◌≤◌, [], true, false, not, length, filter, IsTrue, IfSome, vec_len, vec_capacity};
ghost use Rattle.lr_limits.specs.Limits.{connection_limit};
ghost use Rattle.lr_model.specs.Board.{has_room, is_open, numbers_below};
ghost use Rattle.lr_pubsub.specs.Connection.{is_usable};
ghost use Rattle.lr_pubsub.specs.ConnectionSet.{has_number};
ghost use Rattle.lr_pubsub.specs.ConnectionSlot.{HasSpare, connection_at, slot_at};
ghost use Rattle.lr_pubsub.specs.Delivery.{board_with_message, with_message};

use crate::connection_set::ConnectionSet;
use crate::connection_slot::ConnectionSlot;
use lr_names::Post;
use std::alloc::Global;
use std::mem;

/// Puts a message last into the outboxes of these connections, and lists those whose outboxes are
/// full. It answers how many it reached.
pub(crate) fn tell_all(
    slots: &mut Vec<ConnectionSlot>,
    mut listeners: ConnectionSet,
    post: &Post,
    full: &mut Vec<u32>,
) -> u32
    requires within { connection_limit ≤ vec_len slots.old }
    requires usable { (conn : ℕ) → IsTrue (has_number listeners conn)
        → IsTrue (is_usable (connection_at slots.old.items conn)) }
    requires spare { (conn : ℕ) → HasSpare (slot_at slots.old.items conn) }
    requires none { full.old.items ≡ [] }
    requires room { connection_limit ≤ vec_capacity full.old }
    ensures many { vec_len slots.new ≡ vec_len slots.old }
    ensures told { (conn : ℕ) → connection_at slots.new.items conn
        ≡ board_with_message post.now (has_number listeners) (connection_at slots.old.items) conn }
    ensures others { (conn : ℕ) → has_number listeners conn ≡ false
        → slot_at slots.new.items conn ≡ slot_at slots.old.items conn }
    ensures reached { result
        ≡ length (filter (λ conn. has_room (connection_at slots.old.items conn))
        (numbers_below connection_limit (has_number listeners))) }
    ensures full { full.new.items
        ≡ filter (λ conn. not (has_room (connection_at slots.old.items conn)))
        (numbers_below connection_limit (has_number listeners)) }
{
    let mut reached: u32 = 0;
    while let Some(conn) = listeners.pop_first() {
        if tell(&mut slots[conn as usize], post) {
            reached += 1;
        } else {
            full.push_reserved(conn);
        }
    }
    reached
}

// Puts a message last, if the outbox takes one item more, and answers whether it does.
fn tell(slot: &mut ConnectionSlot, post: &Post) -> bool
    requires usable { IsTrue (is_usable slot.old.connection) }
    requires spare { HasSpare slot.old }
    ensures told { slot.new.connection ≡ with_message post.now slot.old.connection }
    ensures has { result ≡ has_room slot.old.connection }
{
    let has_room = slot.has_room();
    if has_room {
        slot.tell(post);
    }
    has_room
}

/// Takes numbers out of the list in which they were collected. Where there are none the list keeps
/// its memory.
pub(crate) fn take_numbers(alloc: Global, numbers: &mut Vec<u32>) -> Vec<u32>
    ensures taken { result.items ≡ numbers.old.items }
    ensures left { numbers.new.items ≡ [] }
{
    if numbers.is_empty() {
        Vec::new(alloc)
    } else {
        mem::replace(numbers, Vec::new(alloc))
    }
}
