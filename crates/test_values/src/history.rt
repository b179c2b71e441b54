use lr_history::{Act, Entries, Entry, History, HistoryFault};
use std::alloc::Global;
use std::test::Fail;

fn drain(moment: u64) -> Entry {
    Entry {
        moment,
        caller: moment % 3,
        conn: 0,
        act: Act::Drain(1),
    }
}

// A history of so many entries, at the moments from 0 on.
fn history_of(alloc: Global, entries: u64) -> Result<History, HistoryFault> {
    let mut history = History::new(alloc)?;
    for moment in 0..entries {
        history.push(drain(moment))?;
    }
    Ok(history)
}

// Whether the entry at this place was made at that moment.
fn is_at(history: &History, place: u64) -> bool {
    match history.get(place) {
        Some(entry) => entry.moment == place,
        None => false,
    }
}

// Whether the entries at these places were made at those moments.
fn are_at(history: &History, places: &[u64]) -> bool {
    places.iter().all(|place| is_at(history, *place))
}

// Whether a caller has so many entries, and the second of them was made at this moment.
fn has_of_caller(history: &History, caller: u64, entries: usize, second: u64) -> bool {
    match history.filter_caller(caller) {
        Ok(found) => found.len() == entries && is_second(&found, second),
        Err(_) => false,
    }
}

fn is_second(found: &Entries, moment: u64) -> bool {
    match found.get(1) {
        Some(entry) => entry.moment == moment,
        None => false,
    }
}

// Whether the entries of twenty segments are taken and given back: for so few there is memory.
fn fills_segments(alloc: Global) -> bool {
    match history_of(alloc, 20_000) {
        Ok(history) => {
            history.len() == 20_000
                && !history.is_empty()
                && are_at(&history, &[0, 1_023, 1_024, 8_191, 8_192, 9_216, 19_999])
                && history.get(20_000).is_none()
                && history.get(u64::MAX).is_none()
                // 1, 4, .., 19,999
                && has_of_caller(&history, 1, 6_667, 4)
        }
        Err(_) => false,
    }
}

#[test]
fn a_history_crosses_segments(rt: HostRuntime) {
    assert!(rt; fills_segments(rt.alloc()));
}

// Whether so much room can be taken ahead, and a push takes one of it.
fn takes_room(history: &mut History, room: u64) -> bool {
    let reserved = history.reserve(room).is_ok();
    let spare = history.spare();
    let pushed = history.push(drain(7)).is_ok();
    reserved && pushed && spare >= room && history.spare() + 1 == spare
}

// Whether a list of entries has what was pushed to it.
fn lists(entries: &mut Entries) -> bool {
    entries.push(drain(8)).is_ok() && entries.as_slice().len() == 1 && !entries.is_empty()
}

#[test]
fn room_is_taken_ahead(rt: HostRuntime) -> Result<(), Fail> {
    let mut history = History::new(rt.alloc())?;
    assert!(rt; takes_room(&mut history, 3_000));
    assert!(rt; lists(&mut Entries::new(rt.alloc())));
    Ok(())
}
