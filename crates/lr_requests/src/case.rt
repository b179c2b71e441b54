ghost use Rattle.std.specs.Prelude.{◌≡◌};
ghost use Rattle.lr_requests.specs.Case.{is_same_word};

/// Whether two words are one but for the case of their ASCII letters.
pub fn is_one_word(known: &[u8], word: &[u8]) -> bool
    ensures { result ≡ is_same_word known.now word.now }
{
    known.eq_ignore_ascii_case(word)
}
