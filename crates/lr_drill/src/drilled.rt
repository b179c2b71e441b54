// The run of a drill.
ghost use Rattle.std.specs.Prelude.{◌≡◌, ◌+◌, ◌<◌, ◌≤◌, IfOk, OnOk};
ghost use Rattle.lr_limits.specs.Limits.{event_limit};
ghost use Rattle.lr_drill.specs.Drill.{first_drilled, next_drilled, drilled_at, applies};
ghost use Rattle.lr_drill.specs.Drilling.{drilled_of};

use crate::draw::{Locks, event_drawn, next_number};
use lr_machine::Shown;
use lr_world::World;
use std::alloc::{AllocError, Global};

/// A world to which events are applied that are drawn from a number.
#[derive(Drop)]
pub struct Drill {
    /// The number from which the last event was drawn, or the first one is to be.
    pub number: u64,
    /// The locks of which the events are.
    pub locks: Locks,
    /// The world.
    pub world: World,
    /// How many events didn't apply.
    pub not_applied: u32,
}

/// Applies so many drawn events, at most 1,000,000, to a new world.
pub fn run_drill(alloc: Global, number: u64, events: u32) -> Result<Drill, AllocError>
    requires { events ≤ event_limit }
    ensures { IfOk result (λ drill. drilled_of drill ≡ drilled_at number events) }
{
    let mut drill = Drill::new(alloc, number)?;
    for _ in 0..events {
        drill.go_on()?;
    }
    Ok(drill)
}

impl Drill {
    // A new world, and the number from which the first event is to be drawn.
    fn new(alloc: Global, number: u64) -> Result<Drill, AllocError>
        ensures first { IfOk result (λ drill. drilled_of drill ≡ first_drilled number) }
        ensures unused { IfOk result (λ drill. drill.world.applied ≡ 0) }
    {
        Ok(Drill {
            number,
            locks: Locks::new(),
            world: World::new(alloc)?,
            not_applied: 0,
        })
    }

    // Draws an event and applies it.
    fn go_on(&mut self) -> Result<(), AllocError>
        requires room { self.old.world.applied < event_limit }
        requires few { self.old.not_applied ≤ self.old.world.applied }
        ensures next { OnOk result (drilled_of self.new ≡ next_drilled (drilled_of self.old)) }
        ensures count { OnOk result (self.new.world.applied ≡ self.old.world.applied + 1) }
        ensures few { OnOk result (self.new.not_applied ≤ self.new.world.applied) }
    {
        self.number = next_number(self.number);
        let event = event_drawn(self.number, self.world.moment(), &self.locks);
        let shown = self.world.apply(&event)?;
        if !applies(&shown) {
            self.not_applied += 1;
        }
        Ok(())
    }
}

// Whether an event applied, by what is shown of it.
fn applies(shown: &Shown) -> bool
    ensures { result ≡ applies shown.now }
{
    !matches!(shown, Shown::No(_))
}
