// What a drill draws from a number.
ghost use Rattle.std.specs.Prelude.{◌≡◌, ◌%◌, ◌<◌, ◌≤◌, codes};
ghost use Rattle.lr_limits.specs.Limits.{last_moment};
ghost use Rattle.lr_machine.specs.Within.{IsWithin, MayBegin};
ghost use Rattle.lr_drill.specs.Drill.{next_number, drawn_kind, drawn_name, draw_of, event_of, event_drawn, renewal_of, begin_of};

use lr_machine::Event;
use lr_names::Name;
use lr_objects::{Function, Lease, LockFunction, Mode, Want};
use lr_waiting::WatchKind;
use uuid::Uuid;

/// How long a request for a lock waits, in milliseconds.
const WAIT: u64 = 60_000;

/// The lease of a lock that is taken without a watchdog, in milliseconds.
const LEASE: u64 = 5_000;

/// The lease of a hold that stays when one is given back, in milliseconds.
const REST: u64 = 30_000;

/// The number after this one: Knuth's linear congruential generator of 64 bits.
pub fn next_number(number: u64) -> u64
    ensures { result ≡ next_number number }
{
    number
        .wrapping_mul(6_364_136_223_846_793_005)
        .wrapping_add(1_442_695_040_888_963_407)
}

/// The event that a number draws at this moment, in milliseconds.
pub fn event_drawn(number: u64, moment: u64, locks: &Locks) -> Event
    requires { moment ≤ last_moment }
    ensures event { result ≡ event_drawn number moment }
    ensures within { IsWithin result }
    ensures begins { MayBegin result }
{
    Draw::of(number >> 33, locks).event(moment)
}

/// What happens in the event that was drawn.
#[derive(Clone, Copy, Debug, PartialEq, Eq)]
pub enum DrawKind {
    /// A thread begins to take a lock, for a lease.
    Lock,
    /// A thread begins to take a lock that a watchdog renews.
    Watch,
    /// A thread begins to give a lock back.
    Unlock,
    /// Its call is sent.
    Ask,
    /// The server executes its call.
    Exec,
    /// It takes the reply.
    Take,
    /// It looks whether it is to sleep.
    Check,
    /// It is woken.
    Wake,
    /// Its timer fires.
    Fire,
    /// It gives up.
    Quit,
    /// The server gets an order of its client.
    Sub,
    /// Its client takes what the server has sent.
    Push,
    /// Time passes.
    Tick,
    /// A renewal of its hold is asked for, executed or taken.
    Renew,
}

/// What happens, by four bits.
const KINDS: [DrawKind; 16] = [
    DrawKind::Lock,
    DrawKind::Watch,
    DrawKind::Unlock,
    DrawKind::Ask,
    DrawKind::Ask,
    DrawKind::Exec,
    DrawKind::Exec,
    DrawKind::Take,
    DrawKind::Check,
    DrawKind::Wake,
    DrawKind::Fire,
    DrawKind::Quit,
    DrawKind::Sub,
    DrawKind::Push,
    DrawKind::Tick,
    DrawKind::Renew,
];

// What happens at this place, of 16.
fn kind_at(place: u64) -> DrawKind
    requires { place < 16 }
    ensures { result ≡ drawn_kind place }
{
    KINDS[place as usize]
}

/// The names of the locks of a drill.
#[derive(Clone, Copy)]
pub struct Locks {
    a: Name,
    b: Name,
    ghost named: { (a ≡ codes "a") × (b ≡ codes "b") },
}

impl Locks {
    /// The two names.
    pub fn new() -> Locks {
        Locks {
            a: Name::parse(b"a").unwrap(),
            b: Name::parse(b"b").unwrap(),
        }
    }

    // The name at this place, of two.
    fn name_at(&self, place: u64) -> Name
        ensures { result ≡ drawn_name place }
    {
        if place == 0 { self.a } else { self.b }
    }
}

/// What a number draws.
#[derive(Clone, Copy)]
pub struct Draw {
    /// The client, of four.
    pub client: u32,
    /// The thread, of four.
    pub thread: u32,
    /// What happens.
    pub kind: DrawKind,
    /// The lock, of two.
    pub name: Name,
    /// What is left of the number: how much time passes, or what happens to a renewal.
    pub rest: u64,
}

impl Draw {
    /// What these bits draw.
    pub fn of(bits: u64, locks: &Locks) -> Draw
        ensures { result ≡ draw_of bits }
    {
        Draw {
            client: 1 + (bits % 4) as u32,
            thread: 1 + (bits / 4 % 4) as u32,
            kind: kind_at(bits / 16 % 16),
            name: locks.name_at(bits / 256 % 2),
            rest: bits / 512,
        }
    }

    /// The event that was drawn, at this moment, in milliseconds.
    pub fn event(&self, moment: u64) -> Event
        requires { moment ≤ last_moment }
        ensures { result ≡ event_of self.now moment }
    {
        let client = self.client;
        let thread = self.thread;
        match self.kind {
            DrawKind::Lock => self.begin(Mode::For(WAIT), LockFunction::Try, Lease::For(LEASE)),
            DrawKind::Watch => self.begin(Mode::For(WAIT), LockFunction::Try, Lease::Watch),
            DrawKind::Unlock => self.begin(Mode::Once, LockFunction::Unlock, Lease::For(REST)),
            DrawKind::Ask => Event::Ask { client, thread },
            DrawKind::Exec => Event::Exec { client, thread },
            DrawKind::Take => Event::Take { client, thread },
            DrawKind::Check => Event::Check { client, thread },
            DrawKind::Wake => Event::Wake { client, thread },
            DrawKind::Fire => Event::Fire { client, thread },
            DrawKind::Quit => Event::Quit { client, thread },
            DrawKind::Sub => Event::Sub { client },
            DrawKind::Push => Event::Push { client },
            DrawKind::Tick => Event::Tick(moment + self.rest % 1000),
            DrawKind::Renew => self.renewal(),
        }
    }

    // The thread begins a request for the lock.
    fn begin(&self, mode: Mode, function: LockFunction, lease: Lease) -> Event
        ensures { result ≡ begin_of self.now mode function lease }
    {
        Event::Begin {
            client: self.client,
            thread: self.thread,
            mode,
            want: Want {
                function: Function::Lock(function),
                name: self.name,
                lease,
                number: 0,
                id: Uuid::nil(),
            },
        }
    }

    // A renewal of the thread's hold of the lock is asked for, executed or taken.
    fn renewal(&self) -> Event
        ensures { result ≡ renewal_of (self.now.rest % 3) self.now }
    {
        let client = self.client;
        let thread = self.thread;
        let kind = WatchKind::Lock;
        let name = self.name;
        match self.rest % 3 {
            0 => Event::RenewAsk {
                client,
                thread,
                kind,
                name,
            },
            1 => Event::RenewExec {
                client,
                thread,
                kind,
                name,
            },
            _ => Event::RenewTake {
                client,
                thread,
                kind,
                name,
            },
        }
    }
}
