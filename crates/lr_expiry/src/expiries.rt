ghost use Rattle.std.specs.Prelude.{◌≡◌, ◌≢◌, ℕ, [], ◌+◌, ◌<◌, ◌≤◌, ◌^◌, drop, length, slice_index, slice_set, replicate, IfSome, IfNone, IfOk, OnOk, OnErr};
ghost use Rattle.lr_expiry.specs.Tree.{IsLonger, IsTree};

use super::limits::{FEWEST_PLACES, MOST_PLACES, NO_EXPIRY};
use std::alloc::{AllocError, Global};
use std::marker::Model;

/// A moment for each place, in milliseconds, or [`NO_EXPIRY`].
///
/// The least of all is at hand. A change costs the logarithm of how many places there are, and takes
/// no memory.
#[derive(Drop)]
pub struct Expiries {
    places: usize,
    // The second half are the moments of the places. Each node k of the first half, from 1 on, is
    // the lesser of its children, the nodes 2 k and 2 k + 1, so node 1 is the least of all.
    tree: Vec<u64>,
}

impl Model for Expiries {
    ghost use Rattle.std.specs.Prelude.{ℕ, List, drop};
    ghost use Rattle.lr_expiry.specs.Tree.{IsTree};

    ghost Value = { List ℕ };

    ghost view = { λ e. drop e.places e.tree.items };

    ghost invariant = { λ e. IsTree e.places e.tree.items };
}

// Writes the moment of a place, and mends the nodes above it.
fn write(tree: &mut [u64], places: usize, place: usize, moment: u64)
    requires tree { IsTree places tree.old }
    requires place { place < places }
    ensures tree { IsTree places tree.new }
    ensures places { drop places tree.new ≡ slice_set (drop places tree.old) place moment }
{
    let mut node = places + place;
    tree[node] = moment;
    'up: while node > 1 {
        node /= 2;
        tree[node] = tree[2 * node].min(tree[2 * node + 1]);
    }
}

impl Expiries {
    /// No places.
    pub fn new(alloc: Global) -> Self
        ensures { result ≡ [] }
    {
        Expiries {
            places: 0,
            tree: Vec::new(alloc),
        }
    }

    // So many places, none of which expires.
    fn with_places(alloc: Global, places: usize) -> Result<Self, AllocError>
        requires { places < 2 ^ 60 }
        ensures { IfOk result (λ e. e ≡ replicate places NO_EXPIRY) }
    {
        Ok(Expiries {
            places,
            tree: vec![in alloc; NO_EXPIRY; 2 * places]?,
        })
    }

    /// Makes so many places at least. The new ones never expire. After an error nothing has changed.
    pub fn reserve(&mut self, places: usize) -> Result<(), AllocError>
        ensures longer { IsLonger self.old self.new }
        ensures ok { OnOk result (places ≤ length self.new) }
        ensures err { OnErr result (self.new ≡ self.old) }
    {
        if places <= self.places {
            return Ok(());
        }
        if places > MOST_PLACES {
            return Err(AllocError);
        }
        let wanted = places - self.places;
        self.grow(wanted)
    }

    // Adds so many places, or as many as a quarter of those that are there, so that all growths
    // together cost a few times what the last one does.
    fn grow(&mut self, wanted: usize) -> Result<(), AllocError>
        requires { length self.old + wanted ≤ 2 ^ 56 }
        ensures longer { IsLonger self.old self.new }
        ensures ok { OnOk result (length self.old + wanted ≤ length self.new) }
        ensures err { OnErr result (self.new ≡ self.old) }
    {
        let more = wanted.max(self.places / 4).max(FEWEST_PLACES);
        let alloc = *self.tree.allocator();
        let mut grown = Expiries::with_places(alloc, self.places + more)?;
        for place in 0..self.places {
            grown.set(place, self.tree[self.places + place]);
        }
        *self = grown;
        Ok(())
    }

    /// How many places there are.
    pub fn len(&self) -> usize
        ensures { result ≡ length self.now }
    {
        self.places
    }

    /// The moment of a place.
    pub fn get(&self, place: usize) -> u64
        requires { place < length self.now }
        ensures { result ≡ slice_index self.now place }
    {
        self.tree[self.places + place]
    }

    /// Sets the moment of a place.
    pub fn set(&mut self, place: usize, moment: u64)
        requires { place < length self.old }
        ensures { self.new ≡ slice_set self.old place moment }
    {
        write(self.tree.as_mut_slice(), self.places, place, moment);
    }

    /// The least moment of all, or [`NO_EXPIRY`] where there are no places.
    pub fn least(&self) -> u64
        ensures least { (place : ℕ) → place < length self.now
            → result ≤ slice_index self.now place }
        ensures some { result ≢ NO_EXPIRY
            → (place : ℕ) × (place < length self.now) × (slice_index self.now place ≡ result) }
    {
        if self.places == 0 {
            return NO_EXPIRY;
        }
        self.get(self.first())
    }

    /// A place whose moment is at most this one, if there is any: one that has the least of all.
    /// Where there is none, that costs one look.
    pub fn due(&self, moment: u64) -> Option<usize>
        ensures some { IfSome result (λ place. place < length self.now) }
        ensures due { IfSome result (λ place. slice_index self.now place ≤ moment) }
        ensures none { IfNone result ((place : ℕ) → place < length self.now
            → moment < slice_index self.now place) }
    {
        if self.places == 0 {
            return None;
        }
        if moment < self.root() {
            return None;
        }
        let place = self.first();
        if self.get(place) > moment {
            return None;
        }
        Some(place)
    }

    // The moment of the root.
    fn root(&self) -> u64
        requires { 0 < length self.now }
        ensures { (place : ℕ) → place < length self.now → result ≤ slice_index self.now place }
    {
        self.tree[1]
    }

    // A place that has the least moment.
    fn first(&self) -> usize
        requires { 0 < length self.now }
        ensures within { result < length self.now }
        ensures least { (place : ℕ) → place < length self.now
            → slice_index self.now result ≤ slice_index self.now place }
    {
        let mut node = 1;
        'down: while node < self.places {
            node = if self.tree[2 * node] == self.tree[node] {
                2 * node
            } else {
                2 * node + 1
            };
        }
        node - self.places
    }
}
