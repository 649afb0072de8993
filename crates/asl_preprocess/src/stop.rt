//! Why the reading ends early.
ghost use Rattle.std.specs.Prelude.{◌≡◌};
ghost use Rattle.asl_preprocess.specs.Told.{Refuses};
ghost use Rattle.asl_preprocess.specs.State.{message_at};

use iasl_messages::message::Message;
use iasl_messages::place::Place;
use iasl_ports::list::Text;
use std::alloc::{AllocError, Global};

/// A first stop with its message, a file that could not be read, or want of memory.
#[derive(Drop)]
pub(crate) enum ReadingStop {
    At(Message),
    ReadFault,
    Memory,
}

impl From<AllocError> for ReadingStop {
    ghost use Rattle.asl_preprocess.specs.declared.stop.ReadingStop.TheVariants.{Memory};

    ghost from_gives = { λ _ e. e ≡ Memory };

    fn from(_: AllocError) -> Self {
        ReadingStop::Memory
    }
}

/// A refusal with this message.
pub(crate) fn refusal(alloc: Global, number: u16, place: Place, name: &[u8]) -> ReadingStop
    ensures { Refuses result (message_at number place name.now) }
{
    match Text::from_bytes(alloc, name) {
        Ok(name) => ReadingStop::At(Message {
            number,
            place,
            name,
        }),
        Err(AllocError) => ReadingStop::Memory,
    }
}
