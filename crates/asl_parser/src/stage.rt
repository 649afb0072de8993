//! What was read last, but for the trees that are held.
ghost use Rattle.std.specs.Prelude.{◌≡◌};
ghost use Rattle.asl_parser.specs.Stages as spec;
ghost use Rattle.asl_parser.specs.declared.stage.Stage.TheVariants as stages;

use asl_syntax::{Spot, SyntaxText};

/// What was read last, and so what may come.
#[derive(Drop)]
pub enum Stage<'a> {
    /// An expression has to begin.
    Operand,
    /// Arguments have begun.
    FirstArgument,
    /// A comma of arguments was read.
    Argument,
    /// A list has begun.
    FirstElement,
    /// A comma of a list was read.
    Element,
    /// An expression of a body or an item of the source may begin.
    Sequence,
    /// A word or path, which may have arguments or a body.
    Word { spot: Spot, word: SyntaxText<'a> },
    /// A word or path whose arguments are held, which may have a body.
    Called { spot: Spot, word: SyntaxText<'a> },
    /// An expression, which is held, that takes neither arguments nor a body.
    Whole,
    /// A list, or a member of one, which is held.
    Listed,
}

/// Whether an expression may begin, or has to.
pub fn begins(stage: &Stage<'_>) -> bool
    ensures { result ≡ spec.begins stage.now }
{
    match stage {
        Stage::Operand | Stage::FirstArgument | Stage::Argument | Stage::Sequence => true,
        _ => false,
    }
}

/// Whether an expression was read that a word or path does not go on with.
pub fn ends(stage: &Stage<'_>) -> bool
    ensures { result ≡ spec.ends stage.now }
{
    match stage {
        Stage::Called { .. } | Stage::Whole => true,
        _ => false,
    }
}

/// From here on an expression has to begin.
#[inline(always)]
pub fn set_operand(stage: &mut Stage<'_>)
    ensures { stage.new ≡ stages.Operand }
{
    *stage = Stage::Operand;
}

/// Arguments have begun.
#[inline(always)]
pub fn set_first_argument(stage: &mut Stage<'_>)
    ensures { stage.new ≡ stages.FirstArgument }
{
    *stage = Stage::FirstArgument;
}

/// A comma of arguments was read.
#[inline(always)]
pub fn set_argument(stage: &mut Stage<'_>)
    ensures { stage.new ≡ stages.Argument }
{
    *stage = Stage::Argument;
}

/// A list has begun.
#[inline(always)]
pub fn set_first_element(stage: &mut Stage<'_>)
    ensures { stage.new ≡ stages.FirstElement }
{
    *stage = Stage::FirstElement;
}

/// A comma of a list was read.
#[inline(always)]
pub fn set_element(stage: &mut Stage<'_>)
    ensures { stage.new ≡ stages.Element }
{
    *stage = Stage::Element;
}

/// From here on an expression of a body or an item of the source may begin.
#[inline(always)]
pub fn set_sequence(stage: &mut Stage<'_>)
    ensures { stage.new ≡ stages.Sequence }
{
    *stage = Stage::Sequence;
}

/// An expression that takes neither arguments nor a body was read, and is held.
#[inline(always)]
pub fn set_whole(stage: &mut Stage<'_>)
    ensures { stage.new ≡ stages.Whole }
{
    *stage = Stage::Whole;
}

/// A list, or a member of one, was read, and is held.
#[inline(always)]
pub fn set_listed(stage: &mut Stage<'_>)
    ensures { stage.new ≡ stages.Listed }
{
    *stage = Stage::Listed;
}

/// A word or path was read, which may have arguments or a body.
#[inline(always)]
pub fn set_word<'a>(stage: &mut Stage<'a>, spot: Spot, word: SyntaxText<'a>)
    ensures { stage.new ≡ stages.Word spot word.entry }
{
    *stage = Stage::Word { spot, word };
}

/// A word or path with its arguments was read, which are held, and may have a body.
#[inline(always)]
pub fn set_called<'a>(stage: &mut Stage<'a>, spot: Spot, word: SyntaxText<'a>)
    ensures { stage.new ≡ stages.Called spot word.entry }
{
    *stage = Stage::Called { spot, word };
}
