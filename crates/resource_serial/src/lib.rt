//! Resource templates with the descriptors of pins and of serial buses among the others (ACPI Specification 6.4, 6.4.3.8).
#![tactic(auto)]

ghost use Rattle.std.specs.Prelude.{◌≡◌, ◌++◌, ◌∷◌, [], OnOk, IfOk, IfErr};
ghost use Rattle.resource_macros.specs.Templates as spec;

use iasl_messages::message::Stage;
use resource_macros::node::Node;
use resource_macros::output::Template;
use resource_macros::template::template;
use std::alloc::Global;

/// The template of a list of descriptors, or the faults of their arguments and lists.
pub fn serial_template(alloc: Global, list: &[Node]) -> Result<Template, Stage>
    ensures faultless { OnOk result (spec.all_faults (spec.resources_of list.now) ≡ []) }
    ensures bytes { IfOk result (λ t. t.bytes ≡ spec.all_bytes (spec.resources_of list.now) ++ 0x79 ∷ 0 ∷ []) }
    ensures reads { IfOk result (λ t. spec.Describes (spec.resources_of list.now) t.bytes) }
    ensures fields { IfOk result (λ t. t.fields ≡ spec.all_offsets 0 (spec.resources_of list.now)) }
    ensures refused { IfErr result (λ stage. spec.IsRefusal stage (spec.all_faults (spec.resources_of list.now))) }
{
    template(alloc, list)
}
