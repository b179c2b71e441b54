/// What is written on standard error where the words of the command line are no command.
pub const USAGE: &str = "usage: lockd play|serve|shell|audit|drill|race";

/// What `lockd --version` writes.
pub const VERSION: &[u8] = b"lockd 0.1.0\n";

/// What `lockd --help` writes.
pub const HELP: &[u8] = b"lockd: distributed locks with leases, after Redisson's

usage: lockd play|serve|shell|audit|drill|race

  play       reads a schedule on standard input, and writes on standard output what each of its
             events did, a line for each.
  race THREADS CALLS
             so many threads, 1 to 64, call one server at once, and each makes so many calls, 0 to
             10000: it takes and gives back four locks in turn. Then the summary is written: the
             threads, the entries of the server's history, and those of each caller.
  drill NUMBER EVENTS
             so many events, 0 to 1000000, are drawn from a number, 0 to 18446744073709551615, and
             run as a schedule, on two locks. The same number draws the same events. Then the
             summary is written: the events, those that did not apply, the entries of the server's
             history, the moment, and the threads that sleep.
  serve, shell, audit
             are not there yet.
  --help     writes this text.
  --version  writes the program's name and version.

A schedule has one event on each line, as words with single spaces between them:

  begin C T W FUNCTION NAME ..
             thread T, 1 to 256, of client C, 1 to 64, begins a request. W says whether it waits
             where its call is refused: once, where it doesn't; or long, or as many milliseconds as
             it means to wait, 1 to 86400000000. Those that may wait are lock_try, fair_try,
             fenced_try, rw_read, rw_write, sem_try, permit_try, and latch_count, which waits for a
             count of 0. No clock ends their wait, but quit does.
  ask C T    its call is sent.
  exec C T   the server executes the call, now.
  take C T   the thread takes the reply, and its request ends: done. But if it waits and the reply
             is busy, short or a count above 0, it goes on. It is joining until its client hears the
             object's channel, and ready once it does; then it asks again. Where the reply is such a
             one again it is refused: it sleeps next, at most until the moment that is shown.
  rask C T KIND NAME
             the client asks for the renewal of the hold of its thread T, which was taken with watch
             and has fallen due. KIND is lock, fair, fenced, read or write.
  rexec C T KIND NAME
             the server executes the renewal: the hold lasts for 30 seconds from now, or is lost.
  rtake C T KIND NAME
             the client takes the reply: due, with the moment of the next renewal; ended, where the
             hold was lost; or stale, where the hold isn't that for which the renewal was asked.
  tick M     the clock shows M, in milliseconds. It begins at 0, and never goes back.
  force NAME an operator takes the lock away from whoever holds it.

The threads of a client that wait for the same object share a subscription to its channel. For a
lock or a fenced lock they share permits too, each of which lets one of them ask again. A message
brings a permit; so does a thread that ends, by quit or with its reply, while others wait. A fair
lock has a channel for each thread that waits in its queue, and a permit for each. For any other
object a message wakes all: it counts up a number that they share, and lets each of them ask again
that sent its call before.

  sub C      the server gets the oldest order of the client: subscribe, when the first thread waits,
             or unsubscribe, when the last has ended. The number of the client's channels is shown.
  push C     the client takes the oldest item that the server has sent it: ack, with the number of
             threads that are ready now that it is subscribed; unack, when it no longer is; or
             message, with the permits or the number that is counted up, when the object may be free.
  check C T  a refused thread looks before it sleeps: it is ready where it takes a permit, a message
             for all came since it asked, or its moment has come, and else asleep.
  wake C T   a sleeping thread takes a permit, or a message for all came since it asked: it is ready.
  fire C T   a sleeping thread's moment has come, and it is ready.
  quit C T   a thread that is joining, ready, refused or asleep gives up. In the queue of a fair lock
             it is leaving then: its next call gives its place up, and ends it.
  cut C      the client's two connections are closed, and its threads end.
  show       for each thread that sleeps, as C T, the first of these that stands for it. Where a
             message wakes one: message (one is on its way), permit (one is unused), awake (another
             thread is), or timer and the moment at which it comes. Where it wakes all: held (its
             call would be refused now), message, broadcast (a message came since it asked), or
             timer and its own moment. Where none sleeps: none.

Where an event doesn't apply nothing changes. Its line shows no and what was found: the phase of
the thread (idle, fresh, asked, answered, joining, ready, refused, asleep, leaving), cut, orders,
pushes, or of a renewal watch (the hold isn't watched), renewing (one is under way), due (it is too
early) or renewal (none was asked for, or none executed).
For a client that doesn't read the server keeps 16384 items; with the next it is cut off.

A FUNCTION is called with the NAME of an object (letters, digits, _, . and -), and, as is shown
here, a LEASE in milliseconds, a number N from 1 to 1000000000, or an ID, a UUID. A LEASE may be
watch, but for that of a permit: it is 30 seconds then, and the client renews the hold each 10
seconds, until it is given back. These work today:

  lock_try NAME LEASE       takes the lock for LEASE, where it is free or the thread holds it.
  lock_unlock NAME LEASE    gives a hold back. Where more are left, they last for LEASE from now.
  fair_try NAME LEASE       takes the fair lock, where nobody else holds it or is before the thread.
                            Who is refused and waits gets a place in the queue, which goes stale 5
                            seconds after the thread was to ask again.
  fair_unlock NAME LEASE    gives a hold back. At the last the first in the queue is told.
  rw_read NAME LEASE        takes the read-write lock to read, where no other thread writes.
  rw_write NAME LEASE       takes it to write, where nobody holds it or the thread writes.
  rw_unlock_read NAME LEASE gives a hold to read back.
  rw_unlock_write NAME LEASE
                            gives a hold to write back.
  fenced_try NAME LEASE     takes a fenced lock, with a token that grows with each holder.
  fenced_unlock NAME LEASE  gives a hold back.
  fenced_token NAME         tells the last token.
  sem_set NAME N            gives the semaphore N permits, where it has no number yet.
  sem_try NAME N            takes N permits, where so many are free.
  sem_release NAME N        gives N permits back, or adds them.
  sem_count NAME            tells how many are free.
  permit_set NAME N         gives NAME N permits that expire, where it has no number yet.
  permit_try NAME ID LEASE  takes a permit under ID for LEASE, where one is free.
  permit_release NAME ID    gives back the permit that was taken under ID.
  permit_count NAME         tells how many are free.
  latch_set NAME N          sets the countdown latch to N, where it is at 0.
  latch_down NAME           counts it down by one.
  latch_count NAME          tells its count.

A line that is no event ends the run, and standard error says why. Exit status: 0 where the
schedule, the race or the drill was run to its end, 2 where the words are no command, 3 where a read
failed, 4 where a write failed, 5 at a line that is no event, 6 where memory ran out, 7 at a line
outside the limits.

Example, to be pasted at the top of the repository: client 1 takes the lock a for 30 seconds, and
client 2 finds it busy.

  printf '%s\\n' 'begin 1 1 once lock_try a 30000' 'ask 1 1' 'exec 1 1' 'take 1 1' \\
    'begin 2 1 once lock_try a 5' 'ask 2 1' 'exec 2 1' 'take 2 1' | ./lockd play

Another, in which two threads wait for a lock, one in which a message wakes three, and one in which
three wait in the queue of a fair lock:

  ./lockd play < examples/two_shops.txt
  ./lockd play < examples/gate_opens_for_all.txt
  ./lockd play < examples/queue_of_three.txt

One in which a worker outlives its lease, since its client renews it, until that client dies:

  ./lockd play < examples/outlives_its_lease.txt

A race of two threads that make three calls each:

  ./lockd race 2 3

A drill of 2920 events, after which two threads sleep:

  ./lockd drill 7 2920
";
