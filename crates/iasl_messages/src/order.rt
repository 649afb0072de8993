//! The order of messages.
ghost use Rattle.std.specs.Prelude.{◌≡◌, IfOk, IsPermutation, IsSorted};
ghost use Rattle.iasl_messages.specs.Order as spec;

use crate::message::{Message, Messages};
use crate::place::Place;
use iasl_ports::list::List;
use std::alloc::{AllocError, Global};
use std::cmp::Ordering;

fn place_order(first: &Place, second: &Place) -> Ordering
    ensures { result ≡ spec.place_order first.now second.now }
{
    first.cmp(second)
}

fn message_order(first: &Message, second: &Message) -> Ordering
    ensures { result ≡ spec.message_order first.now second.now }
{
    place_order(&first.place, &second.place)
        .then(first.number.cmp(&second.number))
        .then(first.name.as_bytes().cmp(second.name.as_bytes()))
}

/// The same messages in the order of file, line, column, number and name.
pub fn sort(alloc: Global, list: Messages) -> Result<Messages, AllocError>
    ensures exact { IfOk result (λ sorted. sorted ≡ spec.sorted_messages list) }
    ensures same { IfOk result (λ sorted. IsPermutation list sorted) }
    ensures ascending { IfOk result (λ sorted. IsSorted spec.message_order sorted) }
{
    let mut items = list.into_vec();
    items.sort_by(message_order)?;
    Ok(List::from_vec(items))
}
