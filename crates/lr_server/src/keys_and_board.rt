//! What the act of a request changes: the keys, or the board.
ghost use Rattle.std.specs.Prelude.{◌≡◌, ◌≤◌, ℕ, Some, false, true, IsTrue, IfOk, OnErr};
ghost use Rattle.lr_limits.specs.Limits.{last_moment};
ghost use Rattle.lr_model.specs.Board.{is_open};
ghost use Rattle.lr_model.specs.History.{State, call_entry};
ghost use Rattle.lr_pubsub.specs.BoardValue.{board_of};
ghost use Rattle.lr_server.specs.Server.{is_asked, is_stopped};
ghost use Rattle.lr_server.specs.Stands.{StateStands};
ghost use Rattle.lr_server.specs.Done.{IsSent, IsDone, StillStands};

use crate::answered::{Answer, Answered};
use crate::calls::run;
use lr_history::{Act, Entry};
use lr_keys::KeySpace;
use lr_names::Post;
use lr_objects::{Op, Reply};
use lr_pubsub::Board;
use std::alloc::{AllocError, Global};

/// Does the act of an entry that may follow, for which the board took its memory. After an error the
/// keys stand for the same objects at the same moment, and the board is as before.
pub(crate) fn make(
    alloc: Global,
    keys: &mut KeySpace,
    board: &mut Board,
    entry: &Entry,
) -> Result<Answered, AllocError>
    requires open { IsTrue (is_open (board_of board.old entry.now.conn)) }
    requires asked { IsTrue (is_asked entry.now.act) }
    requires runs { is_stopped entry.now.act (board_of board.old entry.now.conn) ≡ false }
    requires ready { IsTrue board.old.ready }
    requires early { entry.now.moment ≤ last_moment }
    requires in_time { keys.old.moment ≤ entry.now.moment }
    ensures done { IfOk result (λ a. (state : State) → StateStands keys.old board.old state
        → IsDone state entry.now a keys.new board.new) }
    ensures keys { OnErr result (StillStands keys.old keys.new) }
    ensures board { OnErr result (board.new.connections ≡ board.old.connections) }
{
    match &entry.act {
        Act::Call(op) => call(alloc, keys, board, entry.moment, op),
        Act::Subscribe(channel) => {
            let count = board.subscribe(entry.conn, channel).unwrap();
            Ok(Answered::without_post(alloc, Answer::Queued(count)))
        }
        Act::Unsubscribe(channel) => {
            let count = board.unsubscribe(entry.conn, channel).unwrap();
            Ok(Answered::without_post(alloc, Answer::Queued(count)))
        }
        Act::Open | Act::Close | Act::Drain(_) => unreachable!(),
    }
}

// Runs a call, and sends its message. After an error the keys stand for the same objects.
fn call(
    alloc: Global,
    keys: &mut KeySpace,
    board: &mut Board,
    moment: u64,
    op: &Op,
) -> Result<Answered, AllocError>
    requires ready { IsTrue board.old.ready }
    requires early { moment ≤ last_moment }
    requires in_time { keys.old.moment ≤ moment }
    ensures done { IfOk result (λ a. (state : State) (caller conn : ℕ)
        → StateStands keys.old board.old state
        → IsDone state (call_entry moment caller conn op.now) a keys.new board.new) }
    ensures keys { OnErr result (StillStands keys.old keys.new) }
    ensures board { OnErr result (board.new.connections ≡ board.old.connections) }
{
    match run(alloc, keys, moment, op) {
        Ok((reply, post)) => Ok(send(alloc, board, reply, post)),
        Err(fault) => Err(fault),
    }
}

// Sends the message of a call, if it has one.
fn send(alloc: Global, board: &mut Board, reply: Reply, post: Option<Post>) -> Answered
    requires { IsTrue board.old.ready }
    ensures { IsSent board.old board.new reply post result }
{
    match post {
        Some(message) => publish(board, reply, &message),
        None => Answered::without_post(alloc, Answer::Reply(reply)),
    }
}

// Sends a message.
fn publish(board: &mut Board, reply: Reply, message: &Post) -> Answered
    requires { IsTrue board.old.ready }
    ensures { IsSent board.old board.new reply (Some message.now) result }
{
    let posted = board.post(message).unwrap();
    Answered {
        answer: Answer::Reply(reply),
        post: Some(*message),
        reached: posted.reached,
        dropped: posted.dropped,
    }
}
