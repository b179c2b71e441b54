ghost use Rattle.std.specs.Prelude.{◌≡◌, [], ◌∷◌, ◌++◌, OnOk, OnErr};

use lr_waiting::Standing;
use std::alloc::{AllocError, Global};
use std::marker::Model;

/// Sleeping threads, and what stands for each.
#[derive(Drop)]
pub struct Standings {
    rows: Vec<Standing>,
}

impl Model for Standings {
    ghost use Rattle.std.specs.Prelude.{List};
    ghost use Rattle.lr_waiting.specs.declared.stand.Standing.{Standing};

    ghost Value = { List Standing };

    ghost view = { λ s. s.rows.items };
}

impl Standings {
    /// No thread sleeps. It takes no memory yet.
    pub fn new(alloc: Global) -> Self
        ensures { result ≡ [] }
    {
        Standings {
            rows: Vec::new(alloc),
        }
    }

    /// Appends a thread. An error changes nothing.
    pub fn push(&mut self, row: Standing) -> Result<(), AllocError>
        ensures ok { OnOk result (self.new ≡ self.old ++ row ∷ []) }
        ensures err { OnErr result (self.new ≡ self.old) }
    {
        self.rows.push(row)?;
        Ok(())
    }

    /// The threads, in order.
    pub fn as_slice(&self) -> &[Standing]
        ensures { result.now ≡ self.now }
    {
        self.rows.as_slice()
    }
}
