//! What a step looks at in a request, and what it changes of it.
ghost use Rattle.std.specs.Prelude.{◌≡◌, ◌≤◌, true, IfSome, IsTrue, None};
ghost use Rattle.lr_limits.specs.Limits.{last_moment};
ghost use Rattle.lr_objects.specs.Function.{arguments_of};
ghost use Rattle.lr_objects.specs.Want.{HasAmount};
ghost use Rattle.lr_waiting.specs.declared.waiter.Stage.TheVariants as stages;
ghost use Rattle.lr_waiting.specs.Client.{asked_at};
ghost use Rattle.lr_waiting.specs.Latch.{is_due};
ghost use Rattle.lr_waiting.specs.Session.{phase_at, at_stage, new_waiter, may_wait, is_watch, due_after, waits_for, has_timer, is_joining_at, leaving_function, leaving_want};
ghost use Rattle.lr_waiting.specs.Told.{ticket_at, is_turn};
ghost use Rattle.lr_session.specs.Stages.{refused_at, asleep_at, may_give_up, joined, want_at};

use lr_names::Due;
use lr_objects::{FairFunction, Function, Lease, Mode, Reply, Want};
use lr_waiting::{Asking, Phase, Refusal, Stage, Waiter};

/// The phase of a request.
pub(crate) fn phase_at(waiter: Waiter) -> Phase
    ensures { result ≡ phase_at waiter.stage }
{
    let Waiter { stage, .. } = waiter;
    match stage {
        Stage::Fresh(_) => Phase::Fresh,
        Stage::Asked(_) => Phase::Asked,
        Stage::Joining => Phase::Joining,
        Stage::Ready(_) => Phase::Ready,
        Stage::Refused(_) => Phase::Refused,
        Stage::Asleep(_) => Phase::Asleep,
        Stage::Leaving(_) => Phase::Leaving,
    }
}

/// A request that has just begun, with its ticket.
pub(crate) fn new_waiter(mode: Mode, want: Want, turn: u64) -> Waiter
    ensures { result ≡ new_waiter mode want turn }
{
    Waiter {
        mode,
        want,
        stage: Stage::Fresh(turn),
        registered: false,
    }
}

/// The request at another stage.
pub(crate) fn at_stage(waiter: Waiter, stage: Stage) -> Waiter
    ensures { result ≡ at_stage stage waiter }
{
    let Waiter {
        mode,
        want,
        registered,
        ..
    } = waiter;
    Waiter {
        mode,
        want,
        stage,
        registered,
    }
}

/// The request, which counts among those that wait on its channel.
pub(crate) fn joined(waiter: Waiter) -> Waiter
    ensures { result ≡ joined waiter }
{
    let Waiter {
        mode,
        want,
        stage,
        ..
    } = waiter;
    Waiter {
        mode,
        want,
        stage,
        registered: true,
    }
}

/// The ticket that a request has.
pub(crate) fn turn_at(waiter: Waiter) -> Option<u64>
    ensures { result ≡ ticket_at waiter.stage }
{
    let Waiter { stage, .. } = waiter;
    match stage {
        Stage::Fresh(turn) | Stage::Ready(turn) | Stage::Leaving(turn) => Some(turn),
        Stage::Asked(_) | Stage::Joining | Stage::Refused(_) | Stage::Asleep(_) => None,
    }
}

/// Whether a request has this ticket.
pub(crate) fn has_turn(waiter: Waiter, turn: u64) -> bool
    ensures { result ≡ is_turn turn (ticket_at waiter.stage) }
{
    match turn_at(waiter) {
        Some(other) => other == turn,
        None => false,
    }
}

/// The call that a request has sent.
pub(crate) fn asked_at(waiter: Waiter) -> Option<Asking>
    ensures value { result ≡ asked_at waiter.stage None }
    ensures stage { IfSome result (λ asking. waiter.stage ≡ stages.Asked asking) }
{
    let Waiter { stage, .. } = waiter;
    match stage {
        Stage::Asked(asking) => Some(asking),
        Stage::Fresh(_)
        | Stage::Joining
        | Stage::Ready(_)
        | Stage::Refused(_)
        | Stage::Asleep(_)
        | Stage::Leaving(_) => None,
    }
}

/// What a request knows whose call was refused, and that hasn't looked yet.
pub(crate) fn refused_at(waiter: Waiter) -> Option<Refusal>
    ensures value { result ≡ refused_at waiter.stage }
    ensures stage { IfSome result (λ refusal. waiter.stage ≡ stages.Refused refusal) }
{
    let Waiter { stage, .. } = waiter;
    match stage {
        Stage::Refused(refusal) => Some(refusal),
        Stage::Fresh(_)
        | Stage::Asked(_)
        | Stage::Joining
        | Stage::Ready(_)
        | Stage::Asleep(_)
        | Stage::Leaving(_) => None,
    }
}

/// What a request knows that sleeps.
pub(crate) fn asleep_at(waiter: Waiter) -> Option<Refusal>
    ensures value { result ≡ asleep_at waiter.stage }
    ensures stage { IfSome result (λ refusal. waiter.stage ≡ stages.Asleep refusal) }
{
    let Waiter { stage, .. } = waiter;
    match stage {
        Stage::Asleep(refusal) => Some(refusal),
        Stage::Fresh(_)
        | Stage::Asked(_)
        | Stage::Joining
        | Stage::Ready(_)
        | Stage::Refused(_)
        | Stage::Leaving(_) => None,
    }
}

/// Whether a request may be given up.
pub(crate) fn may_give_up(waiter: Waiter) -> bool
    ensures { result ≡ may_give_up waiter.stage }
{
    let Waiter { stage, .. } = waiter;
    match stage {
        Stage::Joining | Stage::Ready(_) | Stage::Refused(_) | Stage::Asleep(_) => true,
        Stage::Fresh(_) | Stage::Asked(_) | Stage::Leaving(_) => false,
    }
}

/// The function by which a place in a queue is given up: only a fair lock has a queue.
pub(crate) fn leaving_function(function: Function) -> Option<Function>
    ensures { result ≡ leaving_function function }
{
    match function {
        Function::Fair(_) => Some(Function::Fair(FairFunction::Leave)),
        _ => None,
    }
}

/// What a request wants once it gives its place in a queue up.
pub(crate) fn leaving_want(want: Want) -> Want
    requires { HasAmount (arguments_of want.function) want }
    ensures value { result ≡ leaving_want want (leaving_function want.function) }
    ensures amount { HasAmount (arguments_of result.function) result }
{
    match leaving_function(want.function) {
        Some(function) => Want { function, ..want },
        None => want,
    }
}

/// What a request asks for: what it began with, or to give its place in a queue up.
pub(crate) fn want_at(waiter: Waiter) -> Want
    requires { HasAmount (arguments_of waiter.want.function) waiter.want }
    ensures value { result ≡ want_at waiter waiter.stage }
    ensures amount { HasAmount (arguments_of result.function) result }
{
    let Waiter { want, stage, .. } = waiter;
    match stage {
        Stage::Leaving(_) => leaving_want(want),
        Stage::Fresh(_)
        | Stage::Asked(_)
        | Stage::Joining
        | Stage::Ready(_)
        | Stage::Refused(_)
        | Stage::Asleep(_) => want,
    }
}

/// Whether a request waits until its client hears its channel.
pub(crate) fn is_joining_at(waiter: Waiter) -> bool
    ensures { result ≡ is_joining_at waiter.stage }
{
    let Waiter { stage, .. } = waiter;
    match stage {
        Stage::Joining => true,
        Stage::Fresh(_)
        | Stage::Asked(_)
        | Stage::Ready(_)
        | Stage::Refused(_)
        | Stage::Asleep(_)
        | Stage::Leaving(_) => false,
    }
}

/// Whether a request may wait.
pub(crate) fn may_wait(mode: Mode) -> bool
    ensures { result ≡ may_wait mode }
{
    match mode {
        Mode::Once => false,
        Mode::For(_) | Mode::Long => true,
    }
}

/// Whether a lease is the watchdog's.
pub(crate) fn is_watch(lease: Lease) -> bool
    ensures { result ≡ is_watch lease }
{
    matches!(lease, Lease::Watch)
}

/// Whether a reply lets a request wait.
pub(crate) fn waits_for(reply: &Reply, waiter: &Waiter) -> bool
    ensures value { result ≡ waits_for reply.now waiter.now }
    ensures waits { IsTrue result → may_wait waiter.now.mode ≡ true }
{
    may_wait(waiter.mode) && reply.blocks(waiter.want.function)
}

/// When a thread that was refused asks again by itself: once the object can have come free.
pub fn due_after(at: u64, reply: &Reply) -> Due
    requires { at ≤ last_moment }
    ensures { result ≡ due_after at reply.now }
{
    match reply {
        Reply::Busy(remaining) => Due::At(at + remaining.millis()),
        _ => Due::Never,
    }
}

/// Whether a due moment has come.
pub(crate) fn is_due(due: Due, now: u64) -> bool
    ensures { result ≡ is_due due now }
{
    match due {
        Due::At(moment) => moment <= now,
        Due::Never => false,
    }
}

/// Whether the timer of a thread has come.
pub(crate) fn has_timer(now: u64, waiter: Option<Waiter>) -> bool
    ensures { result ≡ has_timer now waiter }
{
    let Some(waiter) = waiter else {
        return false;
    };
    match asleep_at(waiter) {
        Some(refusal) => is_due(refusal.due, now),
        None => false,
    }
}
