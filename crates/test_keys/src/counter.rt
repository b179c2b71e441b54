use lr_counter::{add, count_at, make_room, number_at, subtract};
use lr_keys::KeySpace;
use lr_text::Brief;
use std::test::Fail;

// Whether a number is made of the memory that was taken for it, and goes up and down.
fn counts(keys: &mut KeySpace, key: &Brief) -> bool {
    add(keys, key, 5);
    add(keys, key, 2);
    subtract(keys, key, 6);
    number_at(keys, key) == Some(1)
}

#[test]
fn the_life_of_a_number(rt: HostRuntime) -> Result<(), Fail> {
    let mut keys = KeySpace::new(rt.alloc())?;
    let key = Brief::new();
    let none = number_at(&keys, &key) == None && count_at(&keys, &key) == 0;
    make_room(rt.alloc(), &mut keys, &key)?;
    assert!(rt; none && counts(&mut keys, &key) && keys.pttl(&key) == -1);
    Ok(())
}
