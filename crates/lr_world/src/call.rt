//! A call of a world, as a step of its server.
ghost use Rattle.std.specs.Prelude.{◌≡◌, ◌<◌, ◌≤◌, length, IfOk, OnOk, OnErr};
ghost use Rattle.lr_limits.specs.Limits.{entry_limit, last_moment};
ghost use Rattle.lr_objects.specs.declared.reply.Reply.{Reply};
ghost use Rattle.lr_model.specs.History.{after, MayFollow, call_entry};
ghost use Rattle.lr_machine.specs.World.{first_state};
ghost use Rattle.lr_server.specs.Server.{with_entry};
ghost use Rattle.lr_server.specs.declared.answered.Answer.TheVariants as answers;
ghost use Rattle.lr_world.specs.Called.{IsCalled, reached_with};

use lr_machine::Reached;
use lr_names::Post;
use lr_objects::{Op, Reply};
use lr_pubsub::Conns;
use lr_server::{Answer, Answered, Request, ServerState, StepFault};
use std::alloc::AllocError;

/// What a call gave.
#[derive(Drop)]
pub(crate) struct Called {
    /// The reply.
    pub(crate) reply: Reply,
    /// The message that it sent.
    pub(crate) post: Option<Reached>,
    /// The connections that the message dropped.
    pub(crate) dropped: Conns,
}

/// Runs a call of a connection that may call. An error changes nothing.
pub(crate) fn call(
    server: &mut ServerState,
    moment: u64,
    caller: u64,
    conn: u32,
    op: &Op,
) -> Result<Called, AllocError>
    requires first { server.old.last ≡ 128 }
    requires may { MayFollow (after first_state server.old.entries)
        (call_entry moment caller conn op.now) }
    requires room { length server.old.entries < entry_limit }
    requires early { moment ≤ last_moment }
    ensures called { IfOk result
        (IsCalled (after first_state server.old.entries) moment op.now) }
    ensures entry { OnOk result (server.new
        ≡ with_entry server.old (call_entry moment caller conn op.now)) }
    ensures err { OnErr result (server.new ≡ server.old) }
{
    match server.step(moment, caller, conn, &Request::Call(*op)) {
        Ok(answered) => Ok(told(answered)),
        Err(fault) => Err(no_memory(fault)),
    }
}

// What the answer to a call gives.
fn told(answered: Answered) -> Called
    requires { (reply : Reply) × (answered.answer ≡ answers.Reply reply) }
    ensures reply { answered.answer ≡ answers.Reply result.reply }
    ensures post { result.post ≡ reached_with answered.post answered.reached }
    ensures dropped { result.dropped ≡ answered.dropped }
{
    let Answered {
        answer,
        post,
        reached,
        dropped,
    } = answered;
    Called {
        reply: reply_of(&answer),
        post: reached_with(post, reached),
        dropped,
    }
}

// The reply of a call that was run.
fn reply_of(answer: &Answer) -> Reply
    requires { (reply : Reply) × (answer.now ≡ answers.Reply reply) }
    ensures { answer.now ≡ answers.Reply result }
{
    match answer {
        Answer::Reply(reply) => *reply,
        Answer::Look(_) | Answer::Queued(_) | Answer::OnlySubscribed => unreachable!(),
    }
}

// A message, with the number of connections that it reached.
fn reached_with(post: Option<Post>, connections: u32) -> Option<Reached>
    ensures { result ≡ reached_with post connections }
{
    post.map(|post| Reached {
        channel: post.channel,
        connections,
    })
}

/// The one fault that a step of a world can meet.
pub(crate) fn no_memory(fault: StepFault) -> AllocError
    requires { fault ≡ StepFault.NoMemory }
{
    match fault {
        StepFault::NoMemory => AllocError,
        StepFault::TooManyConnections | StepFault::HistoryFull | StepFault::Dropped => {
            unreachable!()
        }
    }
}
