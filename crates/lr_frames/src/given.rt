ghost use Rattle.std.specs.Prelude.{◌≡◌};
ghost use Rattle.lr_frames.specs.Given.{given_nothing, given_owner, given_lease, given_number, given_id};

use lr_names::Owner;
use lr_objects::{Access, Amount};
use uuid::Uuid;

/// What a function is given. Parts that it isn't given are thread 1 of the nil id, 0, `false`,
/// `Read`, 1 and the nil id.
#[derive(Clone, Copy)]
pub struct Given {
    /// Who makes the call.
    pub owner: Owner,
    /// The lease, or the lease that a hold that stays gets, in milliseconds.
    pub lease: u64,
    /// Whether to take a place in the queue.
    pub queue: bool,
    /// Of which hold a renewal is.
    pub access: Access,
    /// How many permits or counts.
    pub number: Amount,
    /// The id of a permit.
    pub id: Uuid,
}

impl Given {
    /// Nothing.
    pub fn nothing() -> Given
        ensures { result ≡ given_nothing }
    {
        Given {
            owner: Owner::new(Uuid::nil(), 1),
            lease: 0,
            queue: false,
            access: Access::Read,
            number: Amount::new(1),
            id: Uuid::nil(),
        }
    }

    /// An owner.
    pub fn of_owner(owner: &Owner) -> Given
        ensures { result ≡ given_owner owner.now }
    {
        Given {
            owner: *owner,
            ..Given::nothing()
        }
    }

    /// An owner and a lease in milliseconds.
    pub fn of_lease(owner: &Owner, lease: u64) -> Given
        ensures { result ≡ given_lease owner.now lease }
    {
        Given {
            owner: *owner,
            lease,
            ..Given::nothing()
        }
    }

    /// A number of permits or counts.
    pub fn of_number(number: Amount) -> Given
        ensures { result ≡ given_number number }
    {
        Given {
            number,
            ..Given::nothing()
        }
    }

    /// The id of a permit and a lease in milliseconds, 0 where there is none.
    pub fn of_id(id: &Uuid, lease: u64) -> Given
        ensures { result ≡ given_id id.now lease }
    {
        Given {
            id: *id,
            lease,
            ..Given::nothing()
        }
    }
}
