//! Lists of messages.
ghost use Rattle.std.specs.Prelude.{◌≡◌, ◌++◌, ◌∷◌, [], IfOk, IfErr};
ghost use Rattle.block_outcomes.specs.Joined.{first_told as first_of, is_of_names as of_names};
ghost use Rattle.iasl_messages.specs.declared.message.Stage.TheVariants as stages;

use iasl_messages::message::{Message, Messages, Stage};
use iasl_messages::number::{NAME_DECLARED_TWICE, PATH_IS_TOO_LONG};
use iasl_ports::list::List;
use std::alloc::{AllocError, Global};

/// One message.
pub fn one_message(alloc: Global, message: Message) -> Result<Messages, AllocError>
    ensures { IfOk result (λ messages. messages ≡ message ∷ []) }
{
    let mut messages = Messages::new(alloc);
    messages.push(message)?;
    Ok(messages)
}

/// The messages of a stage's refusal; where it refused nothing, memory was wanting.
pub fn refusal(stage: Stage) -> Result<Messages, AllocError>
    ensures refused { IfOk result (λ messages. stage ≡ stages.Refused messages) }
    ensures memory { IfErr result (λ error. stage ≡ stages.Memory) }
{
    match stage {
        Stage::Refused(messages) => Ok(messages),
        Stage::Memory => Err(AllocError),
    }
}

/// Messages, and others behind them.
pub fn both(first: Messages, second: Messages) -> Result<Messages, AllocError>
    ensures { IfOk result (λ all. all ≡ first ++ second) }
{
    let mut all = first.into_vec();
    all.append(&mut second.into_vec())?;
    Ok(List::from_vec(all))
}

/// Messages, or others where there are none.
pub fn first_told(first: Messages, others: Messages) -> Messages
    ensures { result ≡ first_of first others }
{
    match first.get(0) {
        Some(_) => first,
        None => others,
    }
}

/// Whether an error is of the class of names.
pub fn is_of_names(number: u16) -> bool
    ensures { result ≡ of_names number }
{
    NAME_DECLARED_TWICE <= number && number <= PATH_IS_TOO_LONG
}
