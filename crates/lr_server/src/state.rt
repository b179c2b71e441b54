ghost use Rattle.std.specs.Prelude.{◌≡◌, ◌≢◌, ◌↔◌, ◌<◌, ◌≤◌, ◌+◌, ◌++◌, ◌∷◌, false, nat_le, [], ℕ, Some, IsTrue, IsSome, length, IsOk, IfOk, OnOk, OnErr};
ghost use Rattle.lr_limits.specs.Limits.{connection_limit, entry_limit, last_moment, watchdog_lease};
ghost use Rattle.lr_names.specs.Channel.{channel_wakes};
ghost use Rattle.lr_names.specs.declared.kind.Wakes.TheVariants.{All};
ghost use Rattle.lr_objects.specs.Function.{arguments_of};
ghost use Rattle.lr_objects.specs.Op.{kind_of};
ghost use Rattle.lr_objects.specs.Reply.{blocks};
ghost use Rattle.lr_objects.specs.Want.{HasAmount, op_of};
ghost use Rattle.lr_model.specs.declared.entry.Act.{Act};
ghost use Rattle.lr_model.specs.declared.entry.Act.TheVariants as acts;
ghost use Rattle.lr_model.specs.Answer.{reply_of};
ghost use Rattle.lr_model.specs.Board.{is_open, free_numbers};
ghost use Rattle.lr_model.specs.History.{Opens, Closes, HandsOut, state_at_start, result_of, CanDrain, IsAllowed, IsLegal};
ghost use Rattle.lr_commands.specs.declared.request.Request.TheVariants as requests;
ghost use Rattle.lr_history.specs.Limit.{is_refused};
ghost use Rattle.lr_pubsub.specs.Connection.{is_in_flight};
ghost use Rattle.lr_server.specs.Server.{state_of, connection_of, with_entry, moment_at, entry_of, act_of, is_asked, is_subscriber, is_only_subscribed, is_stopped, takes_some, entry_made, drain_made, with_made, result_made, post_made, reached_of, dropped_of, told_by, IsTold, IsHandedOut, fault_of, drain_fault};
ghost use Rattle.lr_server.specs.Looked.{is_quiet, is_step, is_out_of_place, IsAnsweredQuietly, quiet_fault};

use crate::act::act_of;
use crate::answered::{Answer, Answered};
use crate::fault::StepFault;
use crate::keys_and_board::make;
use crate::looks;
use lr_commands::{Look, Request};
use lr_history::{Act, Entry, History};
use lr_keys::KeySpace;
use lr_limits::{LAST_MOMENT, MOST_CONNECTIONS, MOST_ENTRIES};
use lr_looks::pong;
use lr_names::{Channel, Owner};
use lr_objects::Want;
use lr_pubsub::{Board, Pushes};
use lr_text::Text;
use std::alloc::{AllocError, Global};
use std::marker::Model;

/// So many entries find room before each step: its own, and a close of each connection behind it.
const ROOM: u64 = 1 + MOST_CONNECTIONS as u64;

/// A server: its keys, its connections, and all that it did since it started.
///
/// Each step comes at a reading of the clock, in milliseconds, and for a caller. Its moment is the
/// reading, or that of the last step where that is later; time ends at 9,007,199,254,740,991.
#[derive(Drop)]
pub struct ServerState {
    alloc: Global,
    // the connections 0 to this one were open when it started
    last: u32,
    moment: u64,
    keys: KeySpace,
    board: Board,
    history: History,
}

impl Model for ServerState {
    ghost use Rattle.lr_server.specs.Server.{ServerValue};
    ghost use Rattle.lr_server.specs.Serving.{IsServing};

    ghost Value = { ServerValue };

    ghost view = { λ s. record { last = s.last; entries = s.history.entries } };

    ghost invariant = { λ s. IsServing (record { last = s.last; entries = s.history.entries })
        s.moment s.keys s.board s.history.spare };
}

impl ServerState {
    /// A server at moment 0 with an empty history and the connections 0 to `last` open, by caller
    /// 0.
    pub fn new(alloc: Global, last: u32) -> Result<Self, AllocError>
        requires { last < connection_limit }
        ensures { IfOk result (λ s. s ≡ record { last = last; entries = [] }) }
    {
        let mut history = History::new(alloc)?;
        history.reserve(ROOM)?;
        Ok(ServerState {
            alloc,
            last,
            moment: 0,
            keys: KeySpace::new(alloc)?,
            board: Board::new(alloc, last)?,
            history,
        })
    }

    /// Opens a connection for a caller, and gives its number: the least that is free.
    ///
    /// `TooManyConnections` comes exactly where 256 are open, and `HistoryFull` exactly where
    /// fewer are and the history takes only closes. An error changes nothing.
    pub fn open(&mut self, reading: u64, caller: u64) -> Result<u32, StepFault>
        ensures number { IfOk result (λ conn. Opens conn
            ≡ result_of (state_of self.old) (entry_of self.old reading caller conn acts.Open)) }
        ensures entry { IfOk result (λ conn. self.new
            ≡ with_entry self.old (entry_of self.old reading caller conn acts.Open)) }
        ensures too_many { (result ≡ Err StepFault.TooManyConnections)
            ↔ (free_numbers (state_of self.old).board ≡ []) }
        ensures full { (result ≡ Err StepFault.HistoryFull)
            ↔ (free_numbers (state_of self.old).board ≢ [])
            × IsTrue (is_refused self.old.entries acts.Open) }
        ensures not_dropped { result ≢ Err StepFault.Dropped }
        ensures err { OnErr result (self.new ≡ self.old) }
    {
        let Some(conn) = self.board.next_free() else {
            return Err(StepFault::TooManyConnections);
        };
        if self.is_full() {
            return Err(StepFault::HistoryFull);
        }
        let entry = self.entry(reading, caller, conn, Act::Open);
        self.history.reserve(ROOM)?;
        self.board.open(conn, caller);
        append(&mut self.history, &mut self.moment, entry);
        Ok(conn)
    }

    /// Does what a request of an open connection asks, for a caller. It is a call, or one channel
    /// is subscribed to or left, or a look at the keys, or a ping.
    ///
    /// `OnlySubscribed` is answered exactly where a connection that has a channel calls or looks; it
    /// makes no entry. Nor does a look or a ping, and it changes nothing: a look sees the keys as
    /// the steps so far left them, at the later one of the last step's moment and the reading. Of
    /// the faults, `HistoryFull` comes exactly where an entry would be made and the history takes
    /// only closes; else `Dropped` exactly where the connection was dropped, or should send an
    /// acknowledgement and its outbox is full. An error changes nothing.
    pub fn step(
        &mut self,
        reading: u64,
        caller: u64,
        conn: u32,
        request: &Request,
    ) -> Result<Answered, StepFault>
        requires open { IsTrue (is_open (connection_of self.old conn)) }
        requires request { IsTrue (is_step request.now) }
        ensures answer { (act : Act) → act_of request.now ≡ Some act → IfOk result (λ a.
            let made = entry_made self.old reading caller conn act in
            told_by a.answer ≡ result_made self.old made) }
        ensures post { (act : Act) → act_of request.now ≡ Some act → IfOk result (λ a.
            let made = entry_made self.old reading caller conn act in
            a.post ≡ post_made self.old made) }
        ensures reached { (act : Act) → act_of request.now ≡ Some act → IfOk result (λ a.
            let made = entry_made self.old reading caller conn act in
            a.reached ≡ reached_of (post_made self.old made) (state_of self.old).board) }
        ensures dropping { (act : Act) → act_of request.now ≡ Some act → IfOk result (λ a.
            let made = entry_made self.old reading caller conn act in
            a.dropped ≡ dropped_of (post_made self.old made) (state_of self.old).board) }
        ensures entry { (act : Act) → act_of request.now ≡ Some act → OnOk result (
            self.new ≡ with_made self.old (entry_made self.old reading caller conn act)) }
        ensures quietly { IsTrue (is_quiet request.now)
            → IfOk result (IsAnsweredQuietly self.old reading conn request.now) }
        ensures unchanged { IsTrue (is_quiet request.now) → self.new ≡ self.old }
        ensures only_subscribed { IfOk result (λ a. (a.answer ≡ Answer.OnlySubscribed)
            ↔ IsTrue (is_out_of_place request.now (connection_of self.old conn))) }

        // Each fault but want of memory has its cause.
        ensures full { (act : Act) → act_of request.now ≡ Some act
            → (result ≡ Err StepFault.HistoryFull)
            ↔ (fault_of self.old conn act ≡ Some StepFault.HistoryFull) }
        ensures dropped { (act : Act) → act_of request.now ≡ Some act
            → (result ≡ Err StepFault.Dropped)
            ↔ (fault_of self.old conn act ≡ Some StepFault.Dropped) }
        ensures quiet_not_full { IsTrue (is_quiet request.now)
            → result ≢ Err StepFault.HistoryFull }
        ensures quiet_dropped { IsTrue (is_quiet request.now) → (result ≡ Err StepFault.Dropped)
            ↔ (quiet_fault (connection_of self.old conn) request.now ≡ Some StepFault.Dropped) }
        ensures not_too_many { result ≢ Err StepFault.TooManyConnections }
        ensures subscriber { IsTrue (is_out_of_place request.now (connection_of self.old conn))
            → IsOk result }
        ensures err { OnErr result (self.new ≡ self.old) }
    {
        match request {
            Request::Look(look) => self.look(reading, conn, look),
            Request::Ping(text) => self.ping(conn, text),
            _ => self.act(reading, caller, conn, act_of(request)),
        }
    }

    /// Takes the first items of the outbox of an open connection, at most so many, for a caller.
    /// A drain that takes nothing makes no entry, and takes no memory.
    ///
    /// `HistoryFull` comes exactly where it would take something and the history takes only
    /// closes; else `Dropped` exactly where the connection was dropped. An error changes nothing.
    pub fn drain(
        &mut self,
        reading: u64,
        caller: u64,
        conn: u32,
        most: u32,
    ) -> Result<Pushes, StepFault>
        requires { IsTrue (is_open (connection_of self.old conn)) }
        ensures items { IfOk result (λ items. IsHandedOut items
            (result_made self.old (drain_made self.old reading caller conn most))) }
        ensures entry { OnOk result (self.new
            ≡ with_made self.old (drain_made self.old reading caller conn most)) }
        ensures full { (result ≡ Err StepFault.HistoryFull)
            ↔ (drain_fault self.old conn most ≡ Some StepFault.HistoryFull) }
        ensures dropped { (result ≡ Err StepFault.Dropped)
            ↔ (drain_fault self.old conn most ≡ Some StepFault.Dropped) }
        ensures not_too_many { result ≢ Err StepFault.TooManyConnections }
        ensures idle { (connection_of self.old conn).dropped ≡ false
            → takes_some most (connection_of self.old conn) ≡ false → IsOk result }
        ensures err { OnErr result (self.new ≡ self.old) }
    {
        if let Some(fault) = self.drain_fault(conn, most) {
            return Err(fault);
        }
        if !self.takes_some(conn, most) {
            return Ok(Pushes::new(self.alloc));
        }
        match self.take(reading, caller, conn, most) {
            Ok(pushes) => Ok(pushes),
            Err(_) => Err(StepFault::NoMemory),
        }
    }

    /// Closes an open connection for a caller. It takes no memory and is never refused.
    pub fn close(&mut self, reading: u64, caller: u64, conn: u32)
        requires { IsTrue (is_open (connection_of self.old conn)) }
        ensures gives { Closes
            ≡ result_of (state_of self.old) (entry_of self.old reading caller conn acts.Close) }
        ensures entry { self.new
            ≡ with_entry self.old (entry_of self.old reading caller conn acts.Close) }
    {
        let entry = self.entry(reading, caller, conn, Act::Close);
        self.board.close(conn);
        append(&mut self.history, &mut self.moment, entry);
    }

    /// The moment of the last step, in milliseconds: 0 before the first.
    pub fn moment(&self) -> u64
        ensures { result ≡ (state_of self.now).moment }
    {
        self.moment
    }

    /// What the server has done, in order.
    pub fn history(&self) -> &History
        ensures entries { result.now.entries ≡ self.now.entries }
        ensures legal { IsLegal (state_at_start self.now.last) self.now.entries }
    {
        &self.history
    }

    /// How many channels a connection has.
    pub fn subscribed(&self, conn: u32) -> usize
        ensures { result ≡ length (connection_of self.now conn).channels }
    {
        self.board.channel_count(conn)
    }

    /// Who opened a connection: `None` exactly where it isn't open.
    pub fn opener(&self, conn: u32) -> Option<u64>
        ensures { result ≡ (connection_of self.now conn).opener }
    {
        self.board.opener(conn)
    }

    /// Whether a message of a channel waits in a connection's outbox.
    pub fn in_flight(&self, conn: u32, channel: &Channel) -> bool
        ensures { result ≡ is_in_flight channel.now (connection_of self.now conn) }
    {
        self.board.in_flight(conn, channel)
    }

    /// Whether what an owner wants would have it wait, if it asked at this reading of the clock,
    /// with the lease of the watchdog. It is told by a look at the keys, for the kinds whose
    /// messages wake all who wait: it makes no entry and changes nothing.
    pub fn would_wait(&self, reading: u64, want: &Want, owner: &Owner) -> bool
        requires amount { HasAmount (arguments_of want.now.function) want.now }
        requires wakes_all { let op = op_of want.now owner.now watchdog_lease false in
            channel_wakes (kind_of op) ≡ All }
        ensures { let op = op_of want.now owner.now watchdog_lease false in
            result ≡ blocks (reply_of (state_of self.now).objects (moment_at self.now reading) op)
            want.now.function }
    {
        looks::would_wait(&self.keys, self.moment_at(reading), want, owner)
    }

    // Does what an act of an open connection asks, for a caller.
    fn act(&mut self, reading: u64, caller: u64, conn: u32, act: Act) -> Result<Answered, StepFault>
        requires open { IsTrue (is_open (connection_of self.old conn)) }
        requires asked { IsTrue (is_asked act) }
        ensures told { IfOk result (IsTold (state_of self.old)
            (entry_made self.old reading caller conn act)) }
        ensures entry { OnOk result (
            self.new ≡ with_made self.old (entry_made self.old reading caller conn act)) }
        ensures only_subscribed { IfOk result (λ a. (a.answer ≡ Answer.OnlySubscribed)
            ↔ IsTrue (is_only_subscribed act (connection_of self.old conn))) }
        ensures full { (result ≡ Err StepFault.HistoryFull)
            ↔ (fault_of self.old conn act ≡ Some StepFault.HistoryFull) }
        ensures dropped { (result ≡ Err StepFault.Dropped)
            ↔ (fault_of self.old conn act ≡ Some StepFault.Dropped) }
        ensures not_too_many { result ≢ Err StepFault.TooManyConnections }
        ensures subscriber { IsTrue (is_only_subscribed act (connection_of self.old conn))
            → IsOk result }
        ensures err { OnErr result (self.new ≡ self.old) }
    {
        if self.is_only_subscribed(conn, &act) {
            return Ok(Answered::without_post(self.alloc, Answer::OnlySubscribed));
        }
        if self.is_full() {
            return Err(StepFault::HistoryFull);
        }
        if self.is_stopped(conn, &act) {
            return Err(StepFault::Dropped);
        }
        match self.perform(reading, caller, conn, act) {
            Ok(answered) => Ok(answered),
            Err(_) => Err(StepFault::NoMemory),
        }
    }

    // Answers a look at the keys.
    fn look(&self, reading: u64, conn: u32, look: &Look) -> Result<Answered, StepFault>
        ensures quietly { IfOk result
            (IsAnsweredQuietly self.now reading conn (requests.Look look.now)) }
        ensures only_subscribed { IfOk result (λ a. (a.answer ≡ Answer.OnlySubscribed)
            ↔ IsTrue (is_subscriber (connection_of self.now conn))) }
        ensures not_full { result ≢ Err StepFault.HistoryFull }
        ensures dropped { (result ≡ Err StepFault.Dropped)
            ↔ (quiet_fault (connection_of self.now conn) (requests.Look look.now)
            ≡ Some StepFault.Dropped) }
        ensures not_too_many { result ≢ Err StepFault.TooManyConnections }
        ensures subscriber { IsTrue (is_subscriber (connection_of self.now conn)) → IsOk result }
    {
        if self.is_subscriber(conn) {
            return Ok(Answered::without_post(self.alloc, Answer::OnlySubscribed));
        }
        if self.board.is_dropped(conn) {
            return Err(StepFault::Dropped);
        }
        match lr_looks::look(self.alloc, &self.keys, self.moment_at(reading), look) {
            Ok(frame) => Ok(Answered::without_post(self.alloc, Answer::Look(frame))),
            Err(_) => Err(StepFault::NoMemory),
        }
    }

    // Answers a ping.
    fn ping(&self, conn: u32, text: &Option<Text>) -> Result<Answered, StepFault>
        ensures quietly { (reading : ℕ) → IfOk result
            (IsAnsweredQuietly self.now reading conn (requests.Ping text.now)) }
        ensures not_refused { IfOk result (λ a. a.answer ≢ Answer.OnlySubscribed) }
        ensures not_full { result ≢ Err StepFault.HistoryFull }
        ensures dropped { (result ≡ Err StepFault.Dropped)
            ↔ (quiet_fault (connection_of self.now conn) (requests.Ping text.now)
            ≡ Some StepFault.Dropped) }
        ensures not_too_many { result ≢ Err StepFault.TooManyConnections }
    {
        if self.board.is_dropped(conn) {
            return Err(StepFault::Dropped);
        }
        match pong(self.alloc, self.is_subscriber(conn), text) {
            Ok(frame) => Ok(Answered::without_post(self.alloc, Answer::Look(frame))),
            Err(_) => Err(StepFault::NoMemory),
        }
    }

    // Whether a connection has a channel.
    fn is_subscriber(&self, conn: u32) -> bool
        ensures { result ≡ is_subscriber (connection_of self.now conn) }
    {
        self.board.channel_count(conn) >= 1
    }

    // Whether the history takes only closes.
    fn is_full(&self) -> bool
        ensures { result ≡ nat_le entry_limit (length self.now.entries) }
    {
        self.history.len() >= MOST_ENTRIES
    }

    // The moment of what is done at this reading of the clock.
    fn moment_at(&self, reading: u64) -> u64
        ensures value { result ≡ moment_at self.now reading }
        ensures early { result ≤ last_moment }
    {
        self.moment.max(reading.min(LAST_MOMENT))
    }

    // The entry of an act at this reading of the clock.
    fn entry(&self, reading: u64, caller: u64, conn: u32, act: Act) -> Entry
        ensures value { result ≡ entry_of self.now reading caller conn act }
        ensures early { moment_at self.now reading ≤ last_moment }
    {
        Entry {
            moment: self.moment_at(reading),
            caller,
            conn,
            act,
        }
    }

    // Whether a call comes from a connection that only subscribes.
    fn is_only_subscribed(&self, conn: u32, act: &Act) -> bool
        ensures { result ≡ is_only_subscribed act.now (connection_of self.now conn) }
    {
        matches!(act, Act::Call(_)) && self.is_subscriber(conn)
    }

    // Whether a connection that was dropped, or reads too slowly, stops an act.
    fn is_stopped(&self, conn: u32, act: &Act) -> bool
        ensures { result ≡ is_stopped act.now (connection_of self.now conn) }
    {
        match act {
            Act::Call(_) | Act::Drain(_) => self.board.is_dropped(conn),
            Act::Subscribe(_) | Act::Unsubscribe(_) => self.board.is_shut(conn),
            Act::Open | Act::Close => false,
        }
    }

    // Whether a drain takes something.
    fn takes_some(&self, conn: u32, most: u32) -> bool
        ensures { result ≡ takes_some most (connection_of self.now conn) }
    {
        most >= 1 && self.board.waiting(conn) >= 1
    }

    // The fault of a drain. Memory may be wanting besides.
    fn drain_fault(&self, conn: u32, most: u32) -> Option<StepFault>
        ensures { result ≡ drain_fault self.now conn most }
    {
        if self.takes_some(conn, most) && self.is_full() {
            return Some(StepFault::HistoryFull);
        }
        if self.board.is_dropped(conn) {
            return Some(StepFault::Dropped);
        }
        None
    }

    // Does an act that may be done. All memory is taken before the first change.
    fn perform(
        &mut self,
        reading: u64,
        caller: u64,
        conn: u32,
        act: Act,
    ) -> Result<Answered, AllocError>
        requires asked { IsTrue (is_asked act) }
        requires allowed { IsAllowed (state_of self.old) conn act }
        requires room { is_refused self.old.entries act ≡ false }
        ensures told { IfOk result (IsTold (state_of self.old)
            (Some (entry_of self.old reading caller conn act))) }
        ensures entry { OnOk result (self.new
            ≡ with_entry self.old (entry_of self.old reading caller conn act)) }
        ensures err { OnErr result (self.new ≡ self.old) }
    {
        let entry = self.entry(reading, caller, conn, act);
        self.history.reserve(ROOM)?;
        self.board.reserve()?;
        let answered = match make(self.alloc, &mut self.keys, &mut self.board, &entry) {
            Ok(answered) => answered,
            Err(fault) => return Err(fault),
        };
        append(&mut self.history, &mut self.moment, entry);
        Ok(answered)
    }

    // Takes something from an outbox. All memory is taken before the first change.
    fn take(
        &mut self,
        reading: u64,
        caller: u64,
        conn: u32,
        most: u32,
    ) -> Result<Pushes, AllocError>
        requires allowed { CanDrain (connection_of self.old conn) most }
        requires room { is_refused self.old.entries (acts.Drain most) ≡ false }
        ensures items { IfOk result (λ items.
            let entry = entry_of self.old reading caller conn (acts.Drain most) in
            HandsOut items ≡ result_of (state_of self.old) entry) }
        ensures entry { OnOk result (self.new
            ≡ with_entry self.old (entry_of self.old reading caller conn (acts.Drain most))) }
        ensures err { OnErr result (self.new ≡ self.old) }
    {
        let entry = self.entry(reading, caller, conn, Act::Drain(most));
        self.history.reserve(ROOM)?;
        let pushes = match self.board.drain(conn, most) {
            Ok(pushes) => pushes,
            Err(_) => return Err(AllocError),
        };
        append(&mut self.history, &mut self.moment, entry);
        Ok(pushes)
    }
}

// Appends an entry for which there is room, and goes on to its moment.
fn append(history: &mut History, now: &mut u64, entry: Entry)
    requires spare { 0 < history.old.spare }
    requires room { is_refused history.old.entries entry.act ≡ false }
    ensures entries { history.new.entries ≡ history.old.entries ++ entry ∷ [] }
    ensures spare { history.new.spare + 1 ≡ history.old.spare }
    ensures moment { now.new ≡ entry.moment }
{
    *now = entry.moment;
    history.push(entry).unwrap();
}
