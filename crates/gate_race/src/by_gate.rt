ghost use Rattle.std.specs.Prelude.{◌≡◌, ◌+◌, All, IfOk, vec_len};
ghost use Rattle.lr_turnstile.specs.Passes.{view, IsFirst, IsOther};

use crate::tally::{Tally, first_tally, scrambled};
use lr_model::{Act, Entry};
use lr_turnstile::{Gate, Pass};
use std::alloc::{AllocError, Global};
use std::sync::Wait;
use std::thread;
use std::thread::Threads;

/// No more turns than this are taken.
const MOST_TURNS: u64 = 1 << 60;

/// So many threads take so many turns each behind a gate. Answers how many turns were taken.
pub fn count_turns<R: Threads + Wait + Sync>(
    rt: &R,
    alloc: Global,
    threads: u32,
    turns: u32,
) -> Result<u64, AllocError> {
    let (gate, mut first) = Gate::new(alloc, first_tally())?;
    let passes = split_off(alloc, &gate, &mut first, threads)?;
    let shared = &gate;
    let passes = thread::map_vec(
        rt,
        passes,
        &|pass| -> Pass<Tally>
            requires { IsOther shared.now pass }
            ensures { IsOther shared.entry.now result }
        { take_turns(rt, shared, pass, turns) },
    )?;
    join_all(&gate, &mut first, passes);
    Ok(gate.close(first).turns)
}

// Makes a pass for each thread.
fn split_off(
    alloc: Global,
    gate: &Gate<Tally>,
    first: &mut Pass<Tally>,
    threads: u32,
) -> Result<Vec<Pass<Tally>>, AllocError>
    requires first { IsFirst gate.now first.old }
    requires made { (view first.old).made ≡ 1 }
    requires out { (view first.old).out ≡ 0 }
    ensures first { IsFirst gate.now first.new }
    ensures others { IfOk result (λ passes. All (IsOther gate.entry.now) passes.items) }
    ensures out { IfOk result (λ passes. (view first.new).out ≡ vec_len passes) }
{
    let mut passes = Vec::new(alloc);
    for _ in 0..threads {
        passes.reserve(1)?;
        passes.push_reserved(gate.split(first));
    }
    Ok(passes)
}

// Takes the passes into the first one again.
fn join_all(gate: &Gate<Tally>, first: &mut Pass<Tally>, passes: Vec<Pass<Tally>>)
    requires first { IsFirst gate.now first.old }
    requires others { All (IsOther gate.now) passes.items }
    requires out { (view first.old).out ≡ vec_len passes }
    ensures first { IsFirst gate.now first.new }
    ensures none { (view first.new).out ≡ 0 }
{
    let mut passes = passes;
    while let Some(pass) = passes.pop() {
        gate.join(first, pass);
    }
}

fn take_turns<R: Wait>(rt: &R, gate: &Gate<Tally>, pass: Pass<Tally>, turns: u32) -> Pass<Tally>
    requires { IsOther gate.now pass }
    ensures { IsOther gate.entry.now result }
{
    let mut pass = pass;
    for _ in 0..turns {
        take_turn(rt, gate, &mut pass);
    }
    pass
}

fn take_turn<R: Wait>(rt: &R, gate: &Gate<Tally>, pass: &mut Pass<Tally>)
    requires { IsOther gate.now pass.old }
    ensures { IsOther gate.now pass.new }
{
    let caller = pass.caller();
    let tally = gate.enter(rt, pass);
    if tally.turns >= MOST_TURNS {
        gate.leave_same(pass, tally);
        return;
    }
    let next = Tally {
        turns: tally.turns + 1,
        noise: scrambled(tally.noise),
    };
    gate.leave_with(pass, next, entry_of(caller));
}

// The entry of a turn.
fn entry_of(caller: u64) -> Entry
    ensures { result.caller ≡ caller }
{
    Entry {
        moment: 0,
        caller,
        conn: 0,
        act: Act::Drain(1),
    }
}
