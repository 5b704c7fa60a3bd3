//! Why a send or a take gave up.
//! A fault of the link, a fault of the other side's message and want of memory are told apart.

ghost use Rattle.std.specs.Prelude.{◌≡◌};

use shelf_io::Refused;
use std::alloc::AllocError;

/// Why a send or a take gave up.
#[derive(Clone, Copy, Debug, PartialEq, Eq)]
pub enum ExchangeError {
    /// The link failed, and its count of faults rose in the call (or stands at 2^64 - 1).
    Link,
    /// What a take received is not the message that it expects. Sends never answer it.
    PeerMessage {
        /// The level of the expected message.
        level: u16,
        /// Its kind: 1 sums, 2 sigmas, 3 totals.
        kind: u8,
        /// The first offset at fault, in bytes from the message's start: where a byte of the header differs, where an
        /// element begins that is not below the modulus, or where the bytes end.
        at: u32,
    },
    /// There was no memory.
    Memory,
}

impl From<Refused> for ExchangeError {
    ghost use Rattle.peer_exchange.specs.Exchanges.{error_of};

    ghost from_gives = { λ refused e. e ≡ error_of refused };

    fn from(refused: Refused) -> ExchangeError {
        match refused {
            Refused::Failed => ExchangeError::Link,
            Refused::Memory => ExchangeError::Memory,
        }
    }
}

impl From<AllocError> for ExchangeError {
    ghost use Rattle.peer_exchange.specs.declared.exchange_error.ExchangeError.TheVariants.{Memory};

    ghost from_gives = { λ _ e. e ≡ Memory };

    fn from(_refused: AllocError) -> ExchangeError {
        ExchangeError::Memory
    }
}
