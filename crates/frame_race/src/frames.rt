ghost use Rattle.std.specs.Prelude.{◌≡◌, ◌+◌, ◌≤◌, ◌^◌, IfOk, OnOk, length, replicate};
ghost use Rattle.std.specs.List.{concat};

use bytes::BytesMut;
use std::alloc::{AllocError, Global};

/// A call of the reentrant lock, as a client sends it: 99 bytes.
pub const CALL: &[u8] = b"*6\r\n$5\r\nFCALL\r\n$8\r\nlock_try\r\n$1\r\n1\r\n$1\r\na\r\n\
    $38\r\n00000000-0000-0000-0000-000000000001:1\r\n$5\r\n30000\r\n";

// A large frame has so many bulk strings of so many bytes.
const ITEMS: u32 = 15;

const ITEM_BYTES: usize = 65_523;

/// An array of large bulk strings: 983,000 bytes.
pub fn large_frame(alloc: Global) -> Result<BytesMut, AllocError>
    ensures { IfOk result (λ bytes. length bytes.items ≡ 983000) }
{
    let mut bytes = BytesMut::new(alloc);
    bytes.extend_from_slice(b"*15\r\n")?;
    for _ in 0..ITEMS {
        append_item(&mut bytes)?;
    }
    Ok(bytes)
}

fn append_item(bytes: &mut BytesMut) -> Result<(), AllocError>
    requires { length bytes.old.items ≤ 2 ^ 20 }
    ensures { OnOk result (length bytes.new.items ≡ length bytes.old.items + 65533) }
{
    bytes.extend_from_slice(b"$65523\r\n")?;
    bytes.resize(bytes.len() + ITEM_BYTES, b'x')?;
    bytes.extend_from_slice(b"\r\n")
}

/// So many copies of a frame, one behind the other.
pub fn copies(alloc: Global, frame: &[u8], count: u32) -> Result<BytesMut, AllocError>
    ensures { IfOk result (λ bytes. bytes.items ≡ concat (replicate count frame.now)) }
{
    let mut bytes = BytesMut::new(alloc);
    for _ in 0..count {
        bytes.extend_from_slice(frame)?;
    }
    Ok(bytes)
}
