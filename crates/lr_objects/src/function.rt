ghost use Rattle.std.specs.Prelude.{◌≡◌, ◌≢◌, IsNone, IfSome};
ghost use Rattle.lr_text.specs.WordTable.{with_word};
ghost use Rattle.lr_objects.specs.declared.kinds.Function.{Function};
ghost use Rattle.lr_objects.specs.Function.{function_word, arguments_of, begins};

use crate::form::Arguments;
use crate::kinds::Function;

impl Function {
    /// The word of the function.
    pub fn word(self) -> &'static [u8]
        ensures { result.now ≡ function_word self }
    {
        self.form().word
    }

    /// The function with this word: `None` exactly where no function has it.
    pub fn of_word(word: &[u8]) -> Option<Function>
        ensures some { IfSome result (λ function. word.now ≡ function_word function) }
        ensures none { IsNone result → (function : Function) → word.now ≢ function_word function }
    {
        Function::search(word)
    }

    fn search(word: &[u8]) -> Option<Function>
        ensures { result ≡ with_word function_word Self.ALL word.now }
    {
        Function::ALL
            .iter()
            .copied()
            .find(|function| function.word() == word)
    }

    /// What the function is given beside the object and its owner.
    pub fn arguments(self) -> Arguments
        ensures { result ≡ arguments_of self }
    {
        self.form().arguments
    }

    /// Whether a request may begin with the function.
    pub fn begins(self) -> bool
        ensures { result ≡ begins self }
    {
        self.form().begins.may_begin()
    }
}
