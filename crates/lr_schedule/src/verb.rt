ghost use Rattle.std.specs.Prelude.{◌≡◌, ◌≢◌, IsNone, IfSome};
ghost use Rattle.lr_text.specs.WordTable.{with_word};
ghost use Rattle.lr_schedule.specs.declared.verb.Verb.{Verb};
ghost use Rattle.lr_schedule.specs.Spelled.{thread_word, client_word, renew_word, thread_event, client_event, renew_event, verb_word};

use lr_machine::{Event, ThreadId};
use lr_names::Name;
use lr_waiting::WatchKind;

/// What a thread does in an event that names nothing else.
#[derive(Clone, Copy)]
pub enum ThreadVerb {
    /// Its call is sent.
    Ask,
    /// The server executes its call.
    Exec,
    /// It takes the reply.
    Take,
    /// It looks whether it is to sleep.
    Check,
    /// It is woken.
    Wake,
    /// Its timer fires.
    Fire,
    /// It gives up.
    Quit,
}

/// What a client does in an event that names nothing else.
#[derive(Clone, Copy)]
pub enum ClientVerb {
    /// The server gets its oldest order.
    Sub,
    /// It takes the oldest item that it was sent.
    Push,
    /// It is cut off.
    Cut,
}

/// What is done in the renewal of a hold that a client watches.
#[derive(Clone, Copy)]
pub enum RenewVerb {
    /// The client asks for it.
    Ask,
    /// The server executes it.
    Exec,
    /// The client takes the reply.
    Take,
}

/// What an event does, without whom and what it does it to.
#[derive(Clone, Copy)]
pub enum Verb {
    /// A thread begins a request.
    Begin,
    /// A thread does something.
    Thread(ThreadVerb),
    /// A client does something.
    Client(ClientVerb),
    /// The clock shows a moment.
    Tick,
    /// Something is done in the renewal of a hold.
    Renew(RenewVerb),
    /// An operator takes a lock away.
    Force,
    /// It is asked what stands for those that sleep.
    Show,
}

impl ThreadVerb {
    /// The word of the verb.
    pub fn word(self) -> &'static [u8]
        ensures { result.now ≡ thread_word self }
    {
        match self {
            ThreadVerb::Ask => b"ask",
            ThreadVerb::Exec => b"exec",
            ThreadVerb::Take => b"take",
            ThreadVerb::Check => b"check",
            ThreadVerb::Wake => b"wake",
            ThreadVerb::Fire => b"fire",
            ThreadVerb::Quit => b"quit",
        }
    }

    /// The event in which a thread does it.
    pub fn event(self, id: ThreadId) -> Event
        ensures { result ≡ thread_event self id.client id.thread }
    {
        let ThreadId { client, thread } = id;
        match self {
            ThreadVerb::Ask => Event::Ask { client, thread },
            ThreadVerb::Exec => Event::Exec { client, thread },
            ThreadVerb::Take => Event::Take { client, thread },
            ThreadVerb::Check => Event::Check { client, thread },
            ThreadVerb::Wake => Event::Wake { client, thread },
            ThreadVerb::Fire => Event::Fire { client, thread },
            ThreadVerb::Quit => Event::Quit { client, thread },
        }
    }
}

impl ClientVerb {
    /// The word of the verb.
    pub fn word(self) -> &'static [u8]
        ensures { result.now ≡ client_word self }
    {
        match self {
            ClientVerb::Sub => b"sub",
            ClientVerb::Push => b"push",
            ClientVerb::Cut => b"cut",
        }
    }

    /// The event in which a client does it.
    pub fn event(self, client: u32) -> Event
        ensures { result ≡ client_event self client }
    {
        match self {
            ClientVerb::Sub => Event::Sub { client },
            ClientVerb::Push => Event::Push { client },
            ClientVerb::Cut => Event::Cut { client },
        }
    }
}

impl RenewVerb {
    /// The word of the verb.
    pub fn word(self) -> &'static [u8]
        ensures { result.now ≡ renew_word self }
    {
        match self {
            RenewVerb::Ask => b"rask",
            RenewVerb::Exec => b"rexec",
            RenewVerb::Take => b"rtake",
        }
    }

    /// The event in which it is done for the thread's hold of the lock of this kind and name.
    pub fn event(self, id: ThreadId, kind: WatchKind, name: Name) -> Event
        ensures { result ≡ renew_event self id.client id.thread kind name }
    {
        let ThreadId { client, thread } = id;
        match self {
            RenewVerb::Ask => Event::RenewAsk {
                client,
                thread,
                kind,
                name,
            },
            RenewVerb::Exec => Event::RenewExec {
                client,
                thread,
                kind,
                name,
            },
            RenewVerb::Take => Event::RenewTake {
                client,
                thread,
                kind,
                name,
            },
        }
    }
}

impl Verb {
    /// All verbs.
    pub const ALL: [Verb; 17] = [
        Verb::Begin,
        Verb::Thread(ThreadVerb::Ask),
        Verb::Thread(ThreadVerb::Exec),
        Verb::Thread(ThreadVerb::Take),
        Verb::Thread(ThreadVerb::Check),
        Verb::Thread(ThreadVerb::Wake),
        Verb::Thread(ThreadVerb::Fire),
        Verb::Thread(ThreadVerb::Quit),
        Verb::Client(ClientVerb::Sub),
        Verb::Client(ClientVerb::Push),
        Verb::Tick,
        Verb::Renew(RenewVerb::Ask),
        Verb::Renew(RenewVerb::Exec),
        Verb::Renew(RenewVerb::Take),
        Verb::Force,
        Verb::Client(ClientVerb::Cut),
        Verb::Show,
    ];

    /// The word of the verb.
    pub fn word(self) -> &'static [u8]
        ensures { result.now ≡ verb_word self }
    {
        match self {
            Verb::Begin => b"begin",
            Verb::Thread(verb) => verb.word(),
            Verb::Client(verb) => verb.word(),
            Verb::Tick => b"tick",
            Verb::Renew(verb) => verb.word(),
            Verb::Force => b"force",
            Verb::Show => b"show",
        }
    }

    /// The verb with this word: `None` exactly where no verb has it.
    pub fn of_word(word: &[u8]) -> Option<Verb>
        ensures some { IfSome result (λ verb. word.now ≡ verb_word verb) }
        ensures none { IsNone result → (verb : Verb) → word.now ≢ verb_word verb }
    {
        Verb::search(word)
    }

    fn search(word: &[u8]) -> Option<Verb>
        ensures { result ≡ with_word verb_word Self.ALL word.now }
    {
        Verb::ALL.iter().copied().find(|verb| verb.word() == word)
    }
}
