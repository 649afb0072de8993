//! Why a block has no table.
ghost use Rattle.std.specs.Prelude.{◌≡◌, []};

use asl_tree::program::Block;
use iasl_messages::message::Message;
use iasl_messages::number::TABLE_IS_TOO_LONG;
use iasl_ports::list::Text;
use std::alloc::{AllocError, Global};

/// Why a block has no table.
#[derive(Drop)]
pub enum WriteStop {
    /// It has more than 16 MiB: message 6080 at the block.
    TooLong(Message),
    /// There was no memory.
    Memory,
}

impl From<AllocError> for WriteStop {
    ghost use Rattle.aml_sizes.specs.declared.stop.WriteStop.TheVariants.{Memory};

    ghost from_gives = { λ _ e. e ≡ Memory };

    fn from(_: AllocError) -> Self {
        WriteStop::Memory
    }
}

// The refusal of a block whose table is too long.
pub(crate) fn too_long(alloc: Global, block: &Block) -> Message
    ensures number { result.number ≡ 6080 }
    ensures place { result.place ≡ block.now.place }
    ensures no_name { result.name ≡ [] }
{
    Message {
        number: TABLE_IS_TOO_LONG,
        place: block.place,
        name: Text::new(alloc),
    }
}
