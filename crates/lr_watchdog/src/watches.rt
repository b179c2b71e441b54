ghost use Rattle.std.specs.Prelude.{◌≡◌, ◌≤◌, None, Some, IfSome, IfNone, IfErr, OnOk, OnErr};
ghost use Rattle.lr_limits.specs.Limits.{last_moment, longest_lease};
ghost use Rattle.lr_waiting.specs.declared.watch.WatchKey.{WatchKey};
ghost use Rattle.lr_waiting.specs.Watchdog.{IsNextDue, IsToRenew, cut_watchdog, first_watchdog, is_watched, renew_fault, renewal_asked, renewal_taken, renewal_taken_by, watch_dropped, watch_granted};
ghost use Rattle.lr_watchdog.specs.Value.{watchdog_of};

use crate::slot::{self, Slot};
use crate::slots::{add_slot, find_slot, set_slot};
use indexmap::IndexMap;
use lr_expiry::{Expiries, NO_EXPIRY};
use lr_names::Due;
use lr_waiting::{RenewFault, RenewTaken, Renewal, WatchKey};
use std::alloc::{AllocError, Global};
use std::marker::Model;

/// The watched holds of a client, and the renewals that were asked for and whose replies weren't
/// taken.
///
/// A moment is a number of milliseconds, at most `LAST_MOMENT` of `lr_limits`. A hold is renewed
/// each third of the lease, rounded down. No call costs more than the logarithm of how many holds
/// there are.
#[derive(Drop)]
pub struct Watches {
    slots: IndexMap<WatchKey, Slot>,
    /// When the hold at each place of `slots` falls due, or `NO_EXPIRY` while it is renewed and
    /// where it isn't watched.
    due: Expiries,
    lease: u64,
    /// How many grants began a watch.
    generation: u64,
}

impl Model for Watches {
    ghost use Rattle.lr_watchdog.specs.Value.{WatchesValue, IsWatches};

    ghost Value = { WatchesValue };

    ghost view = { λ w. record { lease = w.lease; rows = w.slots.entries; generation = w.generation } };

    ghost invariant = { λ w. IsWatches w.lease w.slots.entries w.due };
}

impl Watches {
    /// No hold is watched. The lease is in milliseconds, 3 to the longest one. It takes no memory.
    pub fn new(lease: u64, alloc: Global) -> Self
        requires low { 3 ≤ lease }
        requires high { lease ≤ longest_lease }
        ensures { watchdog_of result ≡ first_watchdog lease }
    {
        Watches {
            slots: IndexMap::new(alloc),
            due: Expiries::new(alloc),
            lease,
            generation: 0,
        }
    }

    /// The lease that a renewal takes, in milliseconds.
    pub fn lease(&self) -> u64
        ensures lease { result ≡ (watchdog_of self.now).lease }
        ensures high { result ≤ longest_lease }
    {
        self.lease
    }

    /// Whether a hold is watched.
    pub fn is_watched(&self, key: &WatchKey) -> bool
        ensures { result ≡ is_watched (watchdog_of self.now) key.now }
    {
        find_slot(&self.slots, key).watch.is_some()
    }

    /// A hold that was asked for at this moment, under the watchdog's lease, was granted: it falls
    /// due a third of the lease later, and what comes of an earlier renewal doesn't count for it.
    /// An error changes nothing.
    pub fn granted(&mut self, key: &WatchKey, at: u64) -> Result<(), AllocError>
        requires { at ≤ last_moment }
        ensures ok { OnOk result (watchdog_of self.new
            ≡ watch_granted at key.now (watchdog_of self.old)) }
        ensures err { OnErr result (self.new ≡ self.old) }
    {
        let generation = slot::next_generation(self.generation);
        let slot = Slot {
            watch: Some(slot::granted(at, self.lease, generation)),
            ..find_slot(&self.slots, key)
        };
        add_slot(&mut self.slots, &mut self.due, key, slot)?;
        self.generation = generation;
        Ok(())
    }

    /// A hold isn't renewed any longer. It takes no memory.
    pub fn dropped(&mut self, key: &WatchKey)
        ensures { watchdog_of self.new ≡ watch_dropped key.now (watchdog_of self.old) }
    {
        let slot = Slot {
            watch: None,
            ..find_slot(&self.slots, key)
        };
        set_slot(&mut self.slots, &mut self.due, key, slot);
    }

    /// Notes that a renewal is asked for at this moment. It takes no memory, and an error changes
    /// nothing.
    pub fn renew_asked(&mut self, key: &WatchKey, moment: u64) -> Result<(), RenewFault>
        requires { moment ≤ last_moment }
        ensures fault { OnOk result (renew_fault moment key.now (watchdog_of self.old) ≡ None) }
        ensures ok { OnOk result (watchdog_of self.new
            ≡ renewal_asked moment key.now (watchdog_of self.old)) }
        ensures refused { IfErr result (λ fault. Some fault
            ≡ renew_fault moment key.now (watchdog_of self.old)) }
        ensures err { OnErr result (self.new ≡ self.old) }
    {
        let before = find_slot(&self.slots, key);
        let Some(watch) = before.watch else {
            return Err(RenewFault::NoWatch);
        };
        if before.renewal.is_some() {
            return Err(RenewFault::Renewing);
        }
        if let Some(fault) = slot::unless_due(moment, &watch) {
            return Err(fault);
        }
        let renewal = Renewal {
            generation: watch.generation,
            at: moment,
        };
        let slot = Slot {
            watch: Some(watch),
            renewal: Some(renewal),
        };
        set_slot(&mut self.slots, &mut self.due, key, slot);
        Ok(())
    }

    /// Takes the reply to a renewal, which says whether the hold was renewed, and tells what comes
    /// of it: none where no renewal was asked for. It takes no memory.
    pub fn renew_taken(&mut self, key: &WatchKey, renewed: bool) -> Option<RenewTaken>
        ensures told { result ≡ renewal_taken_by renewed key.now (watchdog_of self.old) }
        ensures taken { watchdog_of self.new
            ≡ renewal_taken renewed key.now (watchdog_of self.old) }
    {
        let before = find_slot(&self.slots, key);
        let Some(renewal) = before.renewal else {
            return None;
        };
        let told = slot::told(renewed, self.lease, before.watch, renewal);
        let slot = Slot {
            watch: slot::watch_after(renewed, self.lease, before.watch, renewal),
            renewal: None,
        };
        set_slot(&mut self.slots, &mut self.due, key, slot);
        Some(told)
    }

    /// The renewal of a hold whose reply wasn't taken.
    pub fn renewal(&self, key: &WatchKey) -> Option<Renewal>
        ensures { result ≡ (watchdog_of self.now).renewals key.now }
    {
        find_slot(&self.slots, key).renewal
    }

    /// A hold that is to be renewed at this moment: none exactly where there is none.
    pub fn first_due(&self, moment: u64) -> Option<WatchKey>
        ensures some { IfSome result (λ key. IsToRenew moment (watchdog_of self.now) key) }
        ensures none { IfNone result ((key : WatchKey)
            → IsToRenew moment (watchdog_of self.now) key → ⊥) }
    {
        // `len` is called for its clause that the keys differ, which the proof cites.
        let _len = self.slots.len();
        let place = self.due.due(moment.min(NO_EXPIRY - 1))?;
        let (key, _) = self.slots.get_index(place).unwrap();
        Some(*key)
    }

    /// When the next hold is to be renewed.
    pub fn next_due(&self) -> Due
        ensures { IsNextDue (watchdog_of self.now) result }
    {
        // `len` is called for its clause that the keys differ, which the proof cites.
        let _len = self.slots.len();
        let least = self.due.least();
        if least == NO_EXPIRY {
            return Due::Never;
        }
        Due::At(least)
    }

    /// Of a client that was cut off: no hold is watched any longer. It gives its memory back.
    pub fn cut(&mut self)
        ensures { watchdog_of self.new ≡ cut_watchdog (watchdog_of self.old) }
    {
        let alloc = *self.slots.allocator();
        self.slots = IndexMap::new(alloc);
        self.due = Expiries::new(alloc);
    }
}
