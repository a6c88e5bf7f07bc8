//! Why octets are no message.

ghost use Rattle.std.specs.Prelude.{◌≡◌};
ghost use Rattle.ras_grammar.specs.Faults.{read_fault_number};

use std::alloc::AllocError;
use thiserror::Error;

/// What is wrong with the octets of a message, or that memory was refused.
#[derive(Clone, Copy, Debug, PartialEq, Eq, Error)]
pub enum ReadFault {
    #[error("the octets end")]
    Truncated,
    #[error("a length or a number is outside its range")]
    BadLength,
    #[error("a length is in fragments")]
    Fragmented,
    #[error("a small number is in its long form")]
    TooMany,
    #[error("an alternative has no such index")]
    BadChoice,
    #[error("a character can't be dialled")]
    BadCharacter,
    #[error("out of memory")]
    Memory,
}

impl ReadFault {
    /// The number of the fault.
    pub fn number(&self) -> u8
        ensures { result ≡ read_fault_number self.now }
    {
        match self {
            ReadFault::Truncated => 1,
            ReadFault::BadLength => 2,
            ReadFault::Fragmented => 3,
            ReadFault::TooMany => 4,
            ReadFault::BadChoice => 5,
            ReadFault::BadCharacter => 6,
            ReadFault::Memory => 7,
        }
    }
}

impl From<per_bits::ReadFault> for ReadFault {
    ghost use Rattle.std.specs.Prelude.{◌≡◌};
    ghost use Rattle.ras_grammar.specs.Faults.{fault_of};

    ghost from_gives = { λ fault own. own ≡ fault_of fault };

    fn from(fault: per_bits::ReadFault) -> ReadFault {
        match fault {
            per_bits::ReadFault::Truncated => ReadFault::Truncated,
            per_bits::ReadFault::BadLength => ReadFault::BadLength,
            per_bits::ReadFault::Fragmented => ReadFault::Fragmented,
            per_bits::ReadFault::TooMany => ReadFault::TooMany,
        }
    }
}

impl From<AllocError> for ReadFault {
    ghost use Rattle.std.specs.Prelude.{◌≡◌};
    ghost use Rattle.ras_grammar.specs.declared.fault.ReadFault.TheVariants.{Memory};

    ghost from_gives = { λ _ fault. fault ≡ Memory };

    fn from(_: AllocError) -> ReadFault {
        ReadFault::Memory
    }
}
