ghost use Rattle.std.specs.Prelude.{◌≡◌, ◌+◌, ◌≤◌, length, ◌++◌, codes, decimal};
ghost use Rattle.lr_names.specs.Channel.{channel_text};
ghost use Rattle.lr_objects.specs.Reply.{number_text, reply_text};
ghost use Rattle.lr_machine.specs.Transcript.{post_text, due_text, renewal_text, order_word, cut_of, ordered_text, left_text, phase_word, found_word};
ghost use Rattle.lr_schedule.specs.Tail.{short_text};

use crate::line::{Line, push_number};
use lr_machine::{Found, Ordered, Reached, Replied, Shown};
use lr_names::{Channel, Due};
use lr_objects::Reply;
use lr_waiting::{Phase, RenewTaken};

/// Appends what is shown of an event, but for a list of clients or of threads.
pub fn push_short(line: &mut Line, shown: &Shown)
    requires { length line.old ≤ 30 }
    ensures text { line.new ≡ line.old ++ short_text shown.now }
    ensures short { length line.new ≤ length line.old + 200 }
{
    match shown {
        Shown::Fresh => line.push_bytes(b"fresh"),
        Shown::Asked => line.push_bytes(b"asked"),
        Shown::Replied(replied) => push_replied(line, replied),
        Shown::Done(reply) => push_done(line, reply),
        Shown::Joining => line.push_bytes(b"joining"),
        Shown::Ready => line.push_bytes(b"ready"),
        Shown::Refused(due) => push_until(line, b"refused ", due),
        Shown::ReadyByPermit => line.push_bytes(b"ready permit"),
        Shown::ReadyByBroadcast => line.push_bytes(b"ready broadcast"),
        Shown::ReadyByTimer => line.push_bytes(b"ready timer"),
        Shown::Asleep(due) => push_until(line, b"asleep ", due),
        Shown::Quit => line.push_bytes(b"done quit"),
        Shown::Leaving => line.push_bytes(b"leaving"),
        Shown::Ordered(ordered) => push_ordered(line, ordered),
        Shown::Acknowledged(channel, joined) => push_acknowledged(line, channel, *joined),
        Shown::Left(channel) => push_left(line, channel),
        Shown::Delivered(channel, number) => push_counted(line, b"message ", channel, *number),
        Shown::Moment(moment) => push_moment(line, *moment),
        Shown::RenewAsked => line.push_bytes(b"renew-asked"),
        Shown::RenewTaken(taken) => push_renewal(line, taken),
        Shown::Cut => line.push_bytes(b"cut"),
        Shown::Standings(_) => {}
        Shown::No(found) => push_no(line, *found),
    }
}

fn push_replied(line: &mut Line, replied: &Replied)
    requires { length line.old ≤ 30 }
    ensures text { line.new
        ≡ line.old ++ (reply_text replied.now.reply ++ post_text replied.now.post) }
    ensures short { length line.new ≤ length line.old + 200 }
{
    push_reply(line, &replied.reply);
    push_post(line, &replied.post);
}

fn push_done(line: &mut Line, reply: &Reply)
    requires { length line.old ≤ 30 }
    ensures text { line.new ≡ line.old ++ (codes "done " ++ reply_text reply.now) }
    ensures short { length line.new ≤ length line.old + 38 }
{
    line.push_bytes(b"done ");
    push_reply(line, reply);
}

// A word, and when something falls due.
fn push_until(line: &mut Line, word: &[u8], due: &Due)
    requires line { length line.old ≤ 30 }
    requires word { length word.now ≤ 12 }
    ensures text { line.new ≡ line.old ++ (word.now ++ due_text due.now) }
    ensures short { length line.new ≤ length line.old + 32 }
{
    line.push_bytes(word);
    match due {
        Due::At(moment) => push_number(line, *moment),
        Due::Never => line.push_bytes(b"never"),
    }
}

fn push_acknowledged(line: &mut Line, channel: &Channel, joined: u32)
    requires { length line.old ≤ 30 }
    ensures text { line.new
        ≡ line.old ++ (codes "ack " ++ channel_text channel.now ++ codes " " ++ decimal joined) }
    ensures short { length line.new ≤ length line.old + 161 }
{
    push_counted(line, b"ack ", channel, u64::from(joined));
}

fn push_moment(line: &mut Line, moment: u64)
    requires { length line.old ≤ 30 }
    ensures text { line.new ≡ line.old ++ (codes "moment " ++ decimal moment) }
    ensures short { length line.new ≤ length line.old + 27 }
{
    line.push_bytes(b"moment ");
    push_number(line, moment);
}

// What comes of the reply to a renewal.
fn push_renewal(line: &mut Line, taken: &RenewTaken)
    requires { length line.old ≤ 30 }
    ensures text { line.new ≡ line.old ++ renewal_text taken.now }
    ensures short { length line.new ≤ length line.old + 24 }
{
    match taken {
        RenewTaken::Due(moment) => {
            line.push_bytes(b"due ");
            push_number(line, *moment);
        }
        RenewTaken::Ended => line.push_bytes(b"ended"),
        RenewTaken::Stale => line.push_bytes(b"stale"),
    }
}

fn push_no(line: &mut Line, found: Found)
    requires { length line.old ≤ 30 }
    ensures text { line.new ≡ line.old ++ (codes "no " ++ found_word found) }
    ensures short { length line.new ≤ length line.old + 11 }
{
    line.push_bytes(b"no ");
    line.push_bytes(found_word(found));
}

fn push_reply(line: &mut Line, reply: &Reply)
    requires { length line.old ≤ 200 }
    ensures text { line.new ≡ line.old ++ reply_text reply.now }
    ensures short { length line.new ≤ length line.old + 33 }
{
    line.push_bytes(reply.word());
    push_told(line, reply.number());
}

// The number that a reply tells besides its word.
fn push_told(line: &mut Line, number: Option<u64>)
    requires { length line.old ≤ 212 }
    ensures text { line.new ≡ line.old ++ number_text number }
    ensures short { length line.new ≤ length line.old + 21 }
{
    if let Some(told) = number {
        line.push_bytes(b" ");
        push_number(line, told);
    }
}

// The message that a call sent, if any.
fn push_post(line: &mut Line, post: &Option<Reached>)
    requires { length line.old ≤ 80 }
    ensures text { line.new ≡ line.old ++ post_text post.now }
    ensures short { length line.new ≤ length line.old + 165 }
{
    if let Some(post) = post {
        push_counted(line, b" post ", &post.channel, u64::from(post.connections));
    }
}

// A word, a channel and a number.
fn push_counted(line: &mut Line, word: &[u8], channel: &Channel, number: u64)
    requires line { length line.old ≤ 80 }
    requires word { length word.now ≤ 12 }
    ensures text { line.new
        ≡ line.old ++ (word.now ++ channel_text channel.now ++ codes " " ++ decimal number) }
    ensures short { length line.new ≤ length line.old + 161 }
{
    line.push_bytes(word);
    push_channel(line, channel);
    line.push_bytes(b" ");
    push_number(line, number);
}

fn push_channel(line: &mut Line, channel: &Channel)
    requires { length line.old ≤ 128 }
    ensures text { line.new ≡ line.old ++ channel_text channel.now }
    ensures short { length line.new ≤ length line.old + 128 }
{
    line.push_bytes(channel.brief().as_slice());
}

// An order that the server got, and what came of it.
fn push_ordered(line: &mut Line, ordered: &Ordered)
    requires { length line.old ≤ 30 }
    ensures text { line.new ≡ line.old ++ ordered_text ordered.now }
    ensures short { length line.new ≤ length line.old + 200 }
{
    let word = order_word(ordered.order.subscribe);
    push_counted(
        line,
        word,
        &ordered.order.channel,
        u64::from(ordered.channels),
    );
    push_cut_of(line, ordered.cut);
}

fn order_word(subscribe: bool) -> &'static [u8]
    ensures word { result.now ≡ order_word subscribe }
    ensures short { length result.now ≤ 12 }
{
    if subscribe {
        b"subscribe "
    } else {
        b"unsubscribe "
    }
}

// The client that was cut off, if any.
fn push_cut_of(line: &mut Line, cut: Option<u32>)
    requires { length line.old ≤ 200 }
    ensures text { line.new ≡ line.old ++ cut_of cut }
    ensures short { length line.new ≤ length line.old + 25 }
{
    if let Some(client) = cut {
        line.push_bytes(b" cut ");
        push_number(line, u64::from(client));
    }
}

fn push_left(line: &mut Line, channel: &Option<Channel>)
    requires { length line.old ≤ 30 }
    ensures text { line.new ≡ line.old ++ left_text channel.now }
    ensures short { length line.new ≤ length line.old + 200 }
{
    line.push_bytes(b"unack");
    if let Some(channel) = channel {
        line.push_bytes(b" ");
        push_channel(line, channel);
    }
}

// The word of what was found where an event doesn't apply.
fn found_word(found: Found) -> &'static [u8]
    ensures word { result.now ≡ found_word found }
    ensures short { length result.now ≤ 8 }
{
    match found {
        Found::Phase(phase) => phase_word(phase),
        Found::Orders => b"orders",
        Found::Pushes => b"pushes",
        Found::Watch => b"watch",
        Found::Renewing => b"renewing",
        Found::Due => b"due",
        Found::Renewal => b"renewal",
    }
}

fn phase_word(phase: Phase) -> &'static [u8]
    ensures word { result.now ≡ phase_word phase }
    ensures short { length result.now ≤ 8 }
{
    match phase {
        Phase::Cut => b"cut",
        Phase::Idle => b"idle",
        Phase::Fresh => b"fresh",
        Phase::Asked => b"asked",
        Phase::Answered => b"answered",
        Phase::Joining => b"joining",
        Phase::Ready => b"ready",
        Phase::Refused => b"refused",
        Phase::Asleep => b"asleep",
        Phase::Leaving => b"leaving",
    }
}
