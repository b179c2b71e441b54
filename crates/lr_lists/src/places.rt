//! Places in a list as Redis numbers them.
ghost use Rattle.std.specs.Prelude.{◌≡◌, ◌<◌, ◌≤◌, ◌^◌, min, IfSome};
ghost use Rattle.lr_lists.specs.Places.{place_in, before_start, up_to_stop};

/// The place, counted from the front, that a signed number means in a list of so many items: `None`
/// where it lies past the ends.
pub fn place_in(place: i64, len: usize) -> Option<usize>
    ensures place { result ≡ place_in place len }
    ensures within { IfSome result (λ p. p < len) }
{
    if place >= 0 {
        let front = place.unsigned_abs() as usize;
        return if front < len { Some(front) } else { None };
    }
    let back = place.unsigned_abs() as usize;
    if back <= len { Some(len - back) } else { None }
}

/// How many of so many items stand before the start of a range.
pub fn before_start(start: i64, len: usize) -> usize
    ensures { result ≡ before_start start len }
{
    let start_abs = start.unsigned_abs() as usize;
    if start >= 0 {
        start_abs
    } else {
        len.saturating_sub(start_abs)
    }
}

/// How many of so many items stand up to the stop of a range, which belongs to it.
pub fn up_to_stop(stop: i64, len: usize) -> usize
    ensures { result ≡ min (up_to_stop stop len) len }
{
    let stop_abs = stop.unsigned_abs() as usize;
    if stop >= 0 {
        (stop_abs + 1).min(len)
    } else {
        len.saturating_sub(stop_abs - 1)
    }
}
