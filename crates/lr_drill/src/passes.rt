// The passes of the threads of a race: they are split off, make their calls, and are joined.
ghost use Rattle.std.specs.Prelude.{◌≡◌, ◌≢◌, ◌<◌, ◌+◌, ℕ, [], length, slice_index_or, true, IfSome, IfOk};
ghost use Rattle.std.specs.Bool.{OnTrue};
ghost use Rattle.lr_names.specs.Owner.{IsThread};
ghost use Rattle.lr_turnstile.specs.Passes.{view, IsOther};
ghost use Rattle.lr_drill.specs.Race.{IsRaceSize, IsRace};
ghost use Rattle.lr_drill.specs.Passes.{IsIdleFirst, HasMade, MadeCall};

use crate::calls::call_of;
use lr_service::{Answer, Pass, Request, Served, ServerState, Service};
use std::alloc::{AllocError, Global};
use std::sync::Wait;
use std::thread;
use std::thread::Threads;

/// Runs a race, and gives the server that it was about: `None` where memory ran out.
pub fn run_race<R: Threads + Wait + Sync>(
    rt: &R,
    alloc: Global,
    threads: u32,
    calls: u32,
) -> Option<ServerState>
    requires { IsRaceSize threads calls }
    ensures race { IfSome result (λ server. IsRace threads calls server.entries) }
    ensures start { IfSome result (λ server. server.last ≡ 0) }
{
    let (service, mut first) = Service::new(alloc).ok()?;
    let passes = split_off(alloc, &service, &mut first, threads).ok()?;
    let shared = &service;
    let passes = thread::map_vec(
        rt,
        passes,
        &|pass| -> Option<Pass<Served>>
            requires { HasMade shared.now (view pass).caller 0 pass × IsThread (view pass).caller }
            ensures { IfSome result (HasMade shared.entry.now (view pass).caller calls) }
        { make_calls(rt, shared, pass, calls) },
    )
    .ok()?;
    end_race(service, first, passes, calls)
}

// Makes a pass for each thread.
fn split_off(
    alloc: Global,
    service: &Service,
    first: &mut Pass<Served>,
    threads: u32,
) -> Result<Vec<Pass<Served>>, AllocError>
    requires first { IsIdleFirst service.now first.old }
    requires made { (view first.old).made ≡ 1 }
    requires out { (view first.old).out ≡ 0 }
    requires joined { (view first.old).joined ≡ [] }
    ensures first { IsIdleFirst service.entry.now first.new }
    ensures made { IfOk result (λ passes. (view first.new).made ≡ threads + 1) }
    ensures out { IfOk result (λ passes. (view first.new).out ≡ threads) }
    ensures joined { (view first.new).joined ≡ [] }
    ensures count { IfOk result (λ passes. length passes.items ≡ threads) }
    ensures others { IfOk result (λ passes. (i : ℕ) (d : _) → i < length passes.items
        → HasMade service.entry.now (i + 1) 0 (slice_index_or passes.items i d)) }
{
    let mut passes = Vec::new(alloc);
    for _ in 0..threads {
        passes.reserve(1)?;
        passes.push_reserved(service.split(first));
    }
    Ok(passes)
}

// Makes all calls of a thread: `None` where the server refuses one.
fn make_calls<R: Wait>(
    rt: &R,
    service: &Service,
    pass: Pass<Served>,
    calls: u32,
) -> Option<Pass<Served>>
    requires pass { HasMade service.now (view pass).caller 0 pass }
    requires thread { IsThread (view pass).caller }
    ensures { IfSome result (HasMade service.entry.now (view pass).caller calls) }
{
    let mut pass = pass;
    for number in 0..calls {
        if !make_call(rt, service, &mut pass, number) {
            return None;
        }
    }
    Some(pass)
}

// Makes one call, and says whether it was answered. The server refuses it for want of memory, or
// where its history is full, or where connection 0 runs no functions.
fn make_call<R: Wait>(rt: &R, service: &Service, pass: &mut Pass<Served>, number: u32) -> bool
    requires of { IsOther service.now.gate pass.old }
    requires thread { IsThread (view pass.old).caller }
    ensures of { IsOther service.entry.now.gate pass.new }
    ensures caller { (view pass.new).caller ≡ (view pass.old).caller }
    ensures made { OnTrue result (MadeCall (view pass.old) number (view pass.new)) }
{
    let request = Request::Call(call_of(thread_of(pass), number));
    match service.call(rt, pass, u64::from(number), 0, &request) {
        Ok(answered) => tells_reply(&answered.answer),
        Err(_) => false,
    }
}

// The number of the thread that has this pass.
fn thread_of(pass: &Pass<Served>) -> u32
    requires { IsThread (view pass.now).caller }
    ensures { result ≡ (view pass.now).caller }
{
    pass.caller() as u32
}

// Whether something was done.
fn tells_reply(answer: &Answer) -> bool
    ensures { result ≡ true → answer.now ≢ Answer.OnlySubscribed }
{
    !matches!(answer, Answer::OnlySubscribed)
}

// Joins all passes, and ends the service: `None` where a thread didn't make all its calls.
fn end_race(
    service: Service,
    first: Pass<Served>,
    passes: Vec<Option<Pass<Served>>>,
    calls: u32,
) -> Option<ServerState>
    requires first { IsIdleFirst service first }
    requires made { (view first).made ≡ length passes.items + 1 }
    requires out { (view first).out ≡ length passes.items }
    requires joined { (view first).joined ≡ [] }
    requires each { (i : ℕ) (d : _) → i < length passes.items
        → IfSome (slice_index_or passes.items i d) (HasMade service (i + 1) calls) }
    ensures race { IfSome result (λ server. IsRace (length passes.items) calls server.entries) }
    ensures start { IfSome result (λ server. server.last ≡ 0) }
{
    let mut first = first;
    let mut passes = passes;
    while let Some(pass) = passes.pop() {
        service.join(&mut first, pass?);
    }
    Some(service.finish(first))
}
