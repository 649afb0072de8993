//! A message where something is wrong.
ghost use Rattle.std.specs.Prelude.{◌≡◌, ◌++◌, OnOk};
ghost use Rattle.switch_checks.specs.Told.{told};

use iasl_messages::message::{Message, Messages};
use iasl_messages::place::Place;
use iasl_ports::list::Text;
use std::alloc::{AllocError, Global};

/// A message without a name, where something is wrong.
pub(crate) fn tell_if(
    alloc: Global,
    out: &mut Messages,
    wrong: bool,
    number: u16,
    place: Place,
) -> Result<(), AllocError>
    ensures { OnOk result (out.new ≡ out.old ++ told wrong number place) }
{
    if !wrong {
        return Ok(());
    }
    out.push(Message {
        number,
        place,
        name: Text::new(alloc),
    })?;
    Ok(())
}
