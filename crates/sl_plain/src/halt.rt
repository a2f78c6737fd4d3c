use sl_defs::NoMemory;
use sl_types::Status;

/// Why a call has no outcome.
#[derive(Clone, Copy, Debug, PartialEq, Eq)]
pub(crate) enum Halt {
    /// A check refuses it with this status.
    Refused(Status),
    NoMemory,
    /// A number would pass the end of its type.
    Spent,
}

impl From<NoMemory> for Halt {
    ghost use Rattle.std.specs.Prelude.{◌≡◌};
    ghost use Rattle.sl_plain.specs.declared.halt.Halt.TheVariants.{NoMemory};

    ghost from_gives = { λ _ e. e ≡ NoMemory };

    fn from(_: NoMemory) -> Halt {
        Halt::NoMemory
    }
}

impl From<Status> for Halt {
    ghost use Rattle.std.specs.Prelude.{◌≡◌};
    ghost use Rattle.sl_plain.specs.declared.halt.Halt.TheVariants.{Refused};

    ghost from_gives = { λ s e. e ≡ Refused s };

    fn from(status: Status) -> Halt {
        Halt::Refused(status)
    }
}
