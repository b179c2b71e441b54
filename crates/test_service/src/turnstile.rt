ghost use Rattle.std.specs.Prelude.{◌≡◌};

use lr_model::Act;
use lr_turnstile::{Busy, Entry, Gate, Kept};
use std::test::Fail;

// A list of entries, which stands for itself.
#[derive(Drop)]
struct Ledger {
    entries: Vec<Entry>,
}

impl Kept for Ledger {
    ghost use Rattle.std.specs.Prelude.{◌≡◌};

    ghost stands = { λ ledger base entries. (base ≡ 0) × (ledger.entries.items ≡ entries) };
}

// The entry of a caller.
fn entry_of(caller: u64) -> Entry
    ensures { result.caller ≡ caller }
{
    Entry {
        moment: 0,
        caller,
        conn: 0,
        act: Act::Drain(1),
    }
}

#[test]
fn two_passes_take_turns(rt: HostRuntime) -> Result<(), Fail> {
    let ledger = Ledger {
        entries: Vec::new(rt.alloc()),
    };
    let (gate, mut zero) = Gate::new(rt.alloc(), ledger)?;
    let mut one = gate.split(&mut zero);
    let Ledger { mut entries } = gate.enter(&rt, &mut zero);
    entries.reserve(1)?;
    let busy = gate.try_enter(&mut one);
    assert!(rt; matches!(busy, Err(Busy(1))));
    let entry = entry_of(0);
    entries.push_reserved(entry);
    gate.leave_with(&mut zero, Ledger { entries }, entry);
    let front = gate.front(&mut one);
    assert!(rt; front == 1);
    let Ok(ledger) = gate.try_enter(&mut one) else {
        panic!(rt; "nobody has the turn")
    };
    assert!(rt; ledger.entries.len() == 1);
    gate.leave_same(&mut one, ledger);
    let front = gate.front(&mut zero);
    assert!(rt; front == 1);
    assert!(rt; one.caller() == 1 && one.made() == 0 && zero.made() == 2);
    gate.join(&mut zero, one);
    let ledger = gate.close(zero);
    assert!(rt; ledger.entries.len() == 1);
    Ok(())
}
