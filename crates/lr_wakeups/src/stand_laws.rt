ghost use Rattle.std.specs.Prelude.{◌≡◌, ℕ, true};
ghost use Rattle.lr_names.specs.Channel.{ChannelOf, is_fair};
ghost use Rattle.lr_model.specs.Board.{Connection};
ghost use Rattle.lr_waiting.specs.Client.{Client};
ghost use Rattle.lr_wakeups.specs.Facts.{Facts};
ghost use Rattle.lr_wakeups.specs.Queued.{NoLostTurn};
ghost use Rattle.lr_wakeups.specs.Reached.{Present, NoLostBroadcast};
ghost use Rattle.lr_wakeups.specs.Registered.{is_registered};
ghost use Rattle.lr_wakeups.specs.Standing.{NoLostWakeup};

/// Where the facts are so, something stands for each thread that sleeps on a channel where a message
/// wakes one of many. What is told to stand for it is never nothing, and a timer that is told isn't
/// later than the peak.
pub fn no_wakeup_is_lost()
    ensures { (n : ℕ) (present : Present) (client : Client) (connection : Connection)
        → Facts n present client connection → NoLostWakeup present.peak client connection }
{}

/// And on a channel where a message wakes all: what is told to stand is never nothing, and a timer
/// isn't later than the peak of a read-write lock, or than now where permits are waited for. A
/// semaphore and a latch have none.
pub fn no_broadcast_is_lost()
    ensures { (n : ℕ) (present : Present) (client : Client) (connection : Connection)
        → Facts n present client connection → NoLostBroadcast present client connection }
{}

/// And for a fair lock: the thread's place in the queue goes stale later than it asks again by
/// itself, a message that was sent to it since it asked is on its way or has left a permit, and
/// what is told to stand is never nothing, and no timer that comes too late for the place.
pub fn no_turn_is_lost()
    ensures { (n : ℕ) (present : Present) (client : Client) (connection : Connection)
        → Facts n present client connection → NoLostTurn present client connection }
{}

/// On the channel of a fair lock one thread is registered at most: the owner that the channel
/// names.
pub fn one_thread_waits_for_its_turn()
    ensures { (channel : ChannelOf) (client : Client) (thread other : ℕ)
        → is_fair channel.kind ≡ true → is_registered channel client thread ≡ true
        → is_registered channel client other ≡ true → other ≡ thread }
{}
