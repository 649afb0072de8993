//! What is open around an operand.
ghost use Rattle.std.specs.Prelude.{◌≡◌, [], ◌∷◌, length, MatchOption, OnOk};
ghost use Rattle.asl_conditions.specs.Reading as spec;

use crate::operators::{ConditionPrefix, Operand};
use iasl_ports::list::List;
use std::alloc::{AllocError, Global};
use std::marker::Model;

/// A prefix operator whose operand is to come, or a parenthesis that is not closed, with the row around it.
#[derive(Drop)]
pub enum Opened {
    Prefix(ConditionPrefix),
    Parenthesis(List<Operand>),
}

/// What is open. Contracts see it as a list, the innermost first.
#[derive(Drop)]
pub struct Stack {
    items: Vec<Opened>,
}

impl Model for Stack {
    ghost use Rattle.std.specs.Prelude.{List, reverse};
    ghost use Rattle.asl_conditions.specs.declared.opened.Opened.{Opened};

    ghost Value = { List Opened };

    ghost view = { λ stack. reverse stack.items.items };
}

fn is_prefix(opened: &Opened) -> bool
    ensures { result ≡ spec.is_prefix opened.now }
{
    match opened {
        Opened::Prefix(_) => true,
        Opened::Parenthesis(_) => false,
    }
}

impl Stack {
    /// Nothing is open.
    pub fn new(alloc: Global) -> Stack
        ensures { result ≡ [] }
    {
        Stack {
            items: Vec::new(alloc),
        }
    }

    /// How much is open.
    pub fn len(&self) -> usize
        ensures { result ≡ length self.now }
    {
        self.items.len()
    }

    /// Whether the innermost that is open is a prefix operator.
    pub fn has_prefix(&self) -> bool
        ensures { result ≡ spec.has_prefix self.now }
    {
        match self.items.last() {
            Some(top) => is_prefix(top),
            None => false,
        }
    }

    /// Opens one more.
    pub fn push(&mut self, opened: Opened) -> Result<(), AllocError>
        ensures { OnOk result (self.new ≡ opened ∷ self.old) }
    {
        self.items.push(opened)?;
        Ok(())
    }

    /// Takes the innermost.
    pub fn pop(&mut self) -> Option<Opened>
        ensures { MatchOption result ((self.old ≡ []) × (self.new ≡ [])) (λ top. self.old ≡ top ∷ self.new) }
    {
        self.items.pop()
    }
}
