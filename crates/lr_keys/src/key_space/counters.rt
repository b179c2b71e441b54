//! Calls on counters.
ghost use Rattle.std.specs.Prelude.{◌≡◌, ◌≢◌, [], IsTrue, IfOk, OnOk, OnErr};
ghost use Rattle.lr_keys.specs.KeySpace.{Answers, IsPrepared, UsesPlan, WritesNumber, entry_at, has_counter, counter_at, counter_after_increment};

use super::KeySpace;
use crate::addition::Addition;
use crate::fault::KeyFault;
use crate::field_map::checked_sum;
use crate::value_kind::ValueKind;
use lr_text::Brief;

impl KeySpace {
    /// The number of the counter, if the key is there. `WrongKind` where the key holds another
    /// kind.
    pub fn get(&self, key: &Brief) -> Result<Option<i64>, KeyFault>
        ensures { result ≡ counter_at (entry_at self.now key.now) }
    {
        match self.slot(key) {
            Some(slot) => slot.value.counter(),
            None => Ok(None),
        }
    }

    /// Adds to the counter, and gives the sum. A key that isn't there becomes a counter with no
    /// expiry.
    ///
    /// `WrongKind` where the key holds another kind, `Overflow` where the sum leaves 64 signed
    /// bits. `NoMemory` comes only for a new key that isn't prepared. After an error nothing has
    /// changed.
    pub fn incrby(&mut self, key: &Brief, by: i64) -> Result<i64, KeyFault>
        ensures answer { Answers (λ n. n) result
            (counter_after_increment by (counter_at (entry_at self.old key.now))) }
        ensures there { IsTrue (has_counter self.old key.now) → result ≢ Err KeyFault.NoMemory }
        ensures prepared { IsPrepared self.old key.now ValueKind.Counter []
            → result ≢ Err KeyFault.NoMemory }
        ensures written { IfOk result (λ n. WritesNumber self.old self.new key.now n) }
        ensures plans { let was_there = has_counter self.old key.now in
            OnOk result (UsesPlan self.old self.new was_there key.now ValueKind.Counter []) }
        ensures moment { self.new.moment ≡ self.old.moment }
        ensures refused { OnErr result (self.new ≡ self.old) }
    {
        if let Some(number) = self.get(key)? {
            let sum = checked_sum(number, by).ok_or(KeyFault::Overflow)?;
            self.write_member(key, &Addition::Number { number: sum });
            return Ok(sum);
        }
        let alloc = *self.slots.allocator();
        self.new_member(alloc, key, &Addition::Number { number: by })?;
        Ok(by)
    }
}
