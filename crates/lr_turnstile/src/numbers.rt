ghost use Rattle.std.specs.Prelude.{◌≡◌};
ghost use Rattle.lr_turnstile.specs.Passes.{view};

use crate::pass::Pass;

impl<V> Pass<V> {
    /// The number of the pass, by which entries name it. The first pass has 0.
    pub fn caller(&self) -> u64
        ensures { result ≡ (view self.now).caller }
    {
        self.caller
    }

    /// How many passes were made, the first one counted: of the first pass alone, 0 of others.
    pub fn made(&self) -> u64
        ensures { result ≡ (view self.now).made }
    {
        self.made
    }
}
