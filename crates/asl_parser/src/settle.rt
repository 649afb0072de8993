//! Operators over the trees that are held.
ghost use Rattle.std.specs.Prelude.{◌≡◌, OnOk};
ghost use Rattle.asl_syntax.specs.Grow.{posted};
ghost use Rattle.asl_parser.specs.Machine as spec;
ghost use Rattle.asl_syntax.specs.Opens.{IsOne, tree_of};
ghost use Rattle.asl_parser.specs.Steps.{binds as binds_by, applied_once};

use asl_syntax::{FrameKind, Infix, Spot, Stack};
use std::alloc::AllocError;

// Whether the innermost frame is an operator that binds at least as tightly.
fn binds(stack: &Stack<'_>, pull: u8) -> bool
    ensures { result ≡ binds_by pull stack.now.1 }
{
    match stack.kind() {
        FrameKind::Pending { level, .. } => *level <= pull,
        _ => false,
    }
}

// Ends the innermost frame, an operator whose last operand is held, which is then over its operands.
#[inline(never)]
fn apply(stack: &mut Stack<'_>) -> Result<(), AllocError>
    requires one { IsOne stack.old.0 }
    ensures stack { OnOk result ((tree_of stack.new.0, stack.new.1) ≡ applied_once (tree_of stack.old.0) stack.old.1) }
    ensures one { OnOk result (IsOne stack.new.0) }
{
    if let FrameKind::Pending { spot, op, .. } = stack.kind() {
        let (spot, op) = (*spot, *op);
        let first = stack.leading(spot.token);
        stack.end_with()?;
        stack.apply(first, spot, op)?;
    }
    Ok(())
}

/// Applies the operators that bind at least as tightly to the tree that is held.
#[inline(always)]
pub fn settle(stack: &mut Stack<'_>, pull: u8) -> Result<(), AllocError>
    requires one { IsOne stack.old.0 }
    ensures stack { OnOk result ((tree_of stack.new.0, stack.new.1) ≡ spec.settle pull (tree_of stack.old.0) stack.old.1) }
    ensures one { OnOk result (IsOne stack.new.0) }
{
    while binds(stack, pull) {
        apply(stack)?;
    }
    Ok(())
}

/// Puts an operator behind the tree that is held.
pub fn post(stack: &mut Stack<'_>, spot: Spot, op: Infix) -> Result<(), AllocError>
    requires one { IsOne stack.old.0 }
    ensures tree { OnOk result (tree_of stack.new.0 ≡ posted spot op (tree_of stack.old.0)) }
    ensures one { OnOk result (IsOne stack.new.0) }
    ensures frames { OnOk result (stack.new.1 ≡ stack.old.1) }
{
    let first = stack.leading_held(spot.token);
    stack.apply(first, spot, op)?;
    Ok(())
}
