ghost use Rattle.std.specs.Prelude.{◌≡◌, ◌≢◌};
ghost use Rattle.lr_names.specs.Key.{key_text};

use lr_names::{Name, Part, key};
use lr_text::Brief;

/// The two keys of the permits of a name.
#[derive(Drop)]
pub(crate) struct PermitKeys {
    /// The counter: how many permits there are.
    pub(crate) number: Brief,
    /// The sorted set from the id of each that is taken to its deadline.
    pub(crate) leases: Brief,
}

impl PermitKeys {
    /// The keys of the permits with this name.
    pub(crate) fn of(name: &Name) -> PermitKeys
        ensures number { result.number ≡ key_text Part.Permits name.now }
        ensures leases { result.leases ≡ key_text Part.PermitLeases name.now }
        ensures apart { result.number ≢ result.leases }
    {
        PermitKeys {
            number: key(Part::Permits, name),
            leases: key(Part::PermitLeases, name),
        }
    }
}
