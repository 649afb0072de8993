//! What the end of the tokens does.
ghost use Rattle.std.specs.Prelude.{◌≡◌};
ghost use Rattle.asl_syntax.specs.Grow.{no_subtrees};
ghost use Rattle.asl_parser.specs.Machine as spec;
ghost use Rattle.asl_parser.specs.Machine.{Finishes};
ghost use Rattle.asl_syntax.specs.Opens.{IsOne, tree_of};
ghost use Rattle.asl_parser.specs.Stages.{state_of, Holds};
ghost use Rattle.asl_parser.specs.declared.state.ParserState.TheVariants as states;

use crate::settle::settle;
use crate::stage::Stage;
use crate::state::Refusal;
use asl_syntax::{FrameKind, LOOSEST, Stack, Subtrees};

// The end of the source, whose items were read.
fn finish_source<'a>(stack: &mut Stack<'a>) -> Result<Subtrees<'a>, Refusal>
    requires { stack.old.0 ≡ no_subtrees }
    ensures { Finishes result (spec.finish states.Sequence stack.old.1) }
{
    match stack.kind() {
        FrameKind::Unit => {}
        _ => return Err(Refusal::Refused),
    }
    stack.end();
    match stack.kind() {
        FrameKind::Nothing => {}
        _ => return Err(Refusal::Refused),
    }
    Ok(stack.take()?)
}

#[tactic(auto, unfolding(crate::specs::Machine::finish_whole))]
fn finish_whole<'a>(stack: &mut Stack<'a>) -> Result<Subtrees<'a>, Refusal>
    requires { IsOne stack.old.0 }
    ensures { Finishes result (spec.finish_whole (tree_of stack.old.0) stack.old.1) }
{
    settle(stack, LOOSEST)?;
    match stack.kind() {
        FrameKind::Unit => {}
        _ => return Err(Refusal::Refused),
    }
    stack.add()?;
    finish_source(stack)
}

/// What the end of the tokens does.
pub fn finish<'a>(stack: &mut Stack<'a>, stage: Stage<'a>) -> Result<Subtrees<'a>, Refusal>
    requires { Holds stage stack.old.0 }
    ensures { Finishes result (spec.finish (state_of stage.entry stack.old.0) stack.old.1) }
{
    match stage {
        Stage::Sequence => finish_source(stack),
        Stage::Word { spot, word } => {
            stack.name(spot, word)?;
            finish_whole(stack)
        }
        Stage::Called { spot, word } => {
            stack.call(spot, word)?;
            finish_whole(stack)
        }
        Stage::Whole => finish_whole(stack),
        _ => Err(Refusal::Refused),
    }
}
