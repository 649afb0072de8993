//! One descriptor of a resource template.
ghost use Rattle.std.specs.Prelude.{◌≡◌, IfOk, true};
ghost use Rattle.resource_layout.specs.Layout.{row_of as row_in};
ghost use Rattle.resource_macros.specs.Reading.{IsResource};
ghost use Rattle.resource_macros.specs.Resources as resource;

use crate::encoded::{Encoded, encode};
use crate::node::Node;
use resource_layout::descriptor::Descriptor;
use resource_layout::layout::{fields_of, row_of};
use std::alloc::{AllocError, Global};

/// The bytes of a descriptor with these arguments and this list, without those of the descriptors in its list, and
/// whether they hold what it has (ACPI Specification 6.4, 6.4.2 and 6.4.3). Where they do, they read as the arguments
/// and the list.
#[tactic(auto, using(crate::proofs::Law::reads_where_room))]
pub fn describe(
    alloc: Global,
    descriptor: Descriptor,
    args: &[Node],
    body: &[Node],
) -> Result<Encoded, AllocError>
    ensures bytes { IfOk result (λ made. made.bytes.items ≡ resource.bytes_in (row_in descriptor) args.now body.now) }
    ensures room { IfOk result (λ made. made.has_room ≡ resource.has_room (row_in descriptor) args.now body.now) }
    ensures reads { IfOk result (λ made. made.has_room ≡ true → IsResource (row_in descriptor) args.now body.now made.bytes.items) }
{
    let row = row_of(descriptor);
    Ok(encode(alloc, &row, fields_of(row.descriptor), args, body)?)
}
