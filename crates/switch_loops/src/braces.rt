//! What stands in the braces of a form for the Switches of its method, by the form's operator.
ghost use Rattle.std.specs.Prelude.{◌≡◌};
ghost use Rattle.switch_loops.specs.Braces.{braces_of as braces_by};
ghost use Rattle.switch_loops.specs.Places.{body_inside};

use asl_tree::term::{Control, Declaration, Op};

/// What stands in the braces of a form.
#[derive(Clone, Copy)]
pub enum Braces {
    /// Terms of the same method.
    Terms,
    /// The terms of a method.
    Method,
    /// The Cases of a Switch.
    Cases,
    /// What stays as it is.
    Other,
}

/// What stands in the braces of a form.
pub(crate) fn braces_of(op: Op) -> Braces
    ensures { result ≡ braces_by op }
{
    match op {
        Op::Declaration(Declaration::Method) => Braces::Method,
        Op::Declaration(
            Declaration::Device
            | Declaration::ThermalZone
            | Declaration::PowerResource
            | Declaration::Processor
            | Declaration::Scope,
        )
        | Op::Control(Control::If | Control::ElseIf | Control::Else | Control::While) => {
            Braces::Terms
        }
        Op::Control(Control::Switch) => Braces::Cases,
        _ => Braces::Other,
    }
}

/// Whether a Switch is around what stands in the braces of a form, in the same loop.
pub(crate) fn stays_inside(op: Op, inside: bool) -> bool
    ensures { result ≡ body_inside op inside }
{
    match op {
        Op::Control(Control::While) | Op::Declaration(Declaration::Method) => false,
        _ => inside,
    }
}
