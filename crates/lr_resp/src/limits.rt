ghost use Rattle.std.specs.Prelude.{◌≡◌};
ghost use Rattle.lr_resp.specs.Limits as limits;

/// The greatest length of a simple string or an error, in bytes, without its CR and LF.
pub const LINE_BYTES: usize = 512;

/// The greatest length of a bulk string, in bytes.
pub const BULK_BYTES: u64 = 65_536;

/// How many items an array that is read has at most.
pub const ARRAY_ITEMS: u64 = 64;

/// How many arrays stand inside one another at most.
pub const ARRAYS_DEEP: usize = 4;

/// How many bytes a frame that is read has at most, the marks and ends of its lines among them.
pub const FRAME_BYTES: usize = 1_048_576;

/// How many items an array that is written has at most.
pub const WRITTEN_ITEMS: usize = 131_072;

/// How many bytes a frame that is written has at most.
pub const WRITTEN_BYTES: usize = 8_388_608;

/// Each limit of the code is the number that the definitions name.
pub fn limits_are_as_defined()
    ensures line { LINE_BYTES ≡ limits.line_limit }
    ensures bulk { BULK_BYTES ≡ limits.bulk_limit }
    ensures items { ARRAY_ITEMS ≡ limits.item_limit }
    ensures depth { ARRAYS_DEEP ≡ limits.depth_limit }
    ensures frame { FRAME_BYTES ≡ limits.frame_limit }
    ensures written_items { WRITTEN_ITEMS ≡ limits.written_item_limit }
    ensures written_frame { WRITTEN_BYTES ≡ limits.written_frame_limit }
{}
