ghost use Rattle.std.specs.Prelude.{◌≡◌, ◌≢◌, IsNone, IfSome};
ghost use Rattle.lr_text.specs.WordTable.{with_word};
ghost use Rattle.lr_replies.specs.Shapes.{refusal_text};

// An error that a function answers.
#[derive(Clone, Copy)]
pub enum Refusal {
    // the owner holds the lock too often
    TooDeep,
    // there are too many holds, places or permits
    TooMany,
    // the last token was given out
    TokensSpent,
    // the lease is out of range
    BadLease,
    // there is a permit of this id
    PermitIdInUse,
}

impl Refusal {
    const ALL: [Refusal; 5] = [
        Refusal::TooDeep,
        Refusal::TooMany,
        Refusal::TokensSpent,
        Refusal::BadLease,
        Refusal::PermitIdInUse,
    ];

    // The text of the error.
    pub fn text(self) -> &'static [u8]
        ensures { result.now ≡ refusal_text self }
    {
        match self {
            Refusal::TooDeep => b"LOCK too deep",
            Refusal::TooMany => b"LOCK too many",
            Refusal::TokensSpent => b"LOCK tokens spent",
            Refusal::BadLease => b"LOCK bad lease",
            Refusal::PermitIdInUse => b"LOCK permit id in use",
        }
    }

    // The error with this text: `None` exactly where none has it.
    pub fn of_text(text: &[u8]) -> Option<Refusal>
        ensures some { IfSome result (λ refusal. text.now ≡ refusal_text refusal) }
        ensures none { IsNone result → (refusal : Refusal) → text.now ≢ refusal_text refusal }
    {
        Refusal::search(text)
    }

    fn search(text: &[u8]) -> Option<Refusal>
        ensures { result ≡ with_word refusal_text Self.ALL text.now }
    {
        Refusal::ALL
            .iter()
            .copied()
            .find(|refusal| refusal.text() == text)
    }
}
