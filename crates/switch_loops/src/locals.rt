//! The Locals that terms name.
ghost use Rattle.std.specs.Prelude.{◌≡◌, ◌≤◌, ◌+◌, ◌++◌, [], ◌∷◌, if◌then◌else◌, slice_get, length, IfOk, OnOk};
ghost use Rattle.std.specs.List.{list_any};
ghost use Rattle.acpi_values.specs.Operators.{row_of};
ghost use Rattle.acpi_names.specs.Parts.{is_item_list, is_item_term};
ghost use Rattle.acpi_names.specs.Walked.{node_tree};
ghost use Rattle.asl_operators.specs.Letters.{letters_as};
ghost use Rattle.asl_tree.specs.View.{trees_of};
ghost use Rattle.hidden_locals.specs.Locals.{locals, locals_all};
ghost use Rattle.switch_loops.specs.Reads.{form_locals, letter_names, operand_locals, is_raw, marked, marked_all, none_named};
ghost use Rattle.switch_loops.specs.Reads.{is_marked, others_of};
ghost use Rattle.switch_loops.specs.Reads.{is_constant as constant_letter, reads_of as form_reads, value_reads as reads_of_value};

use acpi_names::part::{NameRole, ValueForm, part_for, value_form_for};
use acpi_values::operator::{DataOp, EventOp, Plain};
use asl_operators::letter::Letter;
use asl_operators::rows::letters;
use asl_tree::term::{Node, Op, Term};
use std::alloc::{AllocError, Global};

/// Which of the eight Locals are named.
#[derive(Clone, Copy, PartialEq, Eq, Debug)]
pub struct Locals {
    named: [bool; 8],
}

impl Locals {
    /// No Local is named.
    pub(crate) fn none() -> Locals
        ensures { result.named ≡ none_named }
    {
        Locals { named: [false; 8] }
    }

    /// From now on a Local is named.
    pub(crate) fn mark(&mut self, index: u8)
        ensures { self.new.named ≡ marked self.old.named index }
    {
        let index = usize::from(index);
        if index < 8 {
            self.named[index] = true;
        }
    }

    fn names(self, index: u8) -> bool
        ensures { result ≡ is_marked self.named index }
    {
        match self.named.get(usize::from(index)) {
            Some(named) => *named,
            None => false,
        }
    }

    // Puts a Local behind others, if it is not named.
    fn put_other(self, index: u8, free: &mut Vec<u8>) -> Result<(), AllocError>
        ensures { OnOk result (free.new.items ≡ free.old.items ++ (if is_marked self.named index then [] else index ∷ [])) }
    {
        if self.names(index) {
            return Ok(());
        }
        free.push(index)?;
        Ok(())
    }

    // So many Locals, and one more if it is not named.
    fn counted(self, index: u8, count: usize) -> usize
        requires { count ≤ 8 }
        ensures { result ≡ (if is_marked self.named index then count else count + 1) }
    {
        if self.names(index) { count } else { count + 1 }
    }

    /// The Locals that are not named, the lowest first.
    pub(crate) fn others(self, alloc: Global) -> Result<Vec<u8>, AllocError>
        ensures { IfOk result (λ free. free.items ≡ others_of self.named) }
    {
        let mut free = Vec::new(alloc);
        for index in 0..8 {
            self.put_other(index, &mut free)?;
        }
        Ok(free)
    }

    /// How many Locals are not named.
    pub(crate) fn left(self) -> usize
        ensures { result ≡ length (others_of self.named) }
    {
        let mut count: usize = 0;
        for index in 0..8 {
            count = self.counted(index, count);
        }
        count
    }
}

/// What of a form may name Locals: nothing, its arguments, those of an operator but for the constants among them, or its arguments
/// and what stands in its braces.
#[derive(Clone, Copy, PartialEq, Eq, Debug)]
pub enum Reads {
    Nothing,
    Arguments,
    Operands(Plain),
    All,
}

fn is_item(term: &Term) -> bool
    ensures { result ≡ is_item_term term.now }
{
    matches!(
        term,
        Term::Unit { .. }
            | Term::Skip(_)
            | Term::Offset(_)
            | Term::Access { .. }
            | Term::Name(_)
            | Term::Fill { .. }
    )
}

fn are_items(nodes: &[Node]) -> bool
    ensures { result ≡ is_item_list (trees_of nodes.now) }
{
    for node in nodes {
        if !is_item(&node.term) {
            return false;
        }
    }
    true
}

fn value_reads(form: ValueForm) -> Reads
    ensures { result ≡ reads_of_value form }
{
    match form {
        ValueForm::Nothing => Reads::Nothing,
        ValueForm::Operator(op) => Reads::Operands(op),
        ValueForm::Package => Reads::All,
        ValueForm::Assign | ValueForm::AssignBy | ValueForm::CondRefOf | ValueForm::Buffer => {
            Reads::Arguments
        }
    }
}

// What of a declaration or of a statement may name Locals.
#[inline(never)]
fn statement_reads(op: Op, args: &[Node], body: &[Node]) -> Reads
    ensures { result ≡ form_reads op (trees_of args.now) (trees_of body.now) }
{
    match part_for(op, args, body) {
        NameRole::Nothing => value_reads(value_form_for(op, args, body)),
        NameRole::Declares { opens: true, .. } | NameRole::Scope | NameRole::Within => Reads::All,
        NameRole::Declares { .. } | NameRole::Returns | NameRole::Prints => Reads::Arguments,
        NameRole::Units(_) => if are_items(body) {
            Reads::Arguments
        } else {
            Reads::Nothing
        },
        NameRole::Alias | NameRole::External { .. } => Reads::Nothing,
    }
}

fn reads_of(op: Op, args: &[Node], body: &[Node]) -> Reads
    ensures { result ≡ form_reads op (trees_of args.now) (trees_of body.now) }
{
    match op {
        Op::Declaration(_) | Op::Control(_) => statement_reads(op, args, body),
        _ => value_reads(value_form_for(op, args, body)),
    }
}

// Whether a constant is among the operands of an operator.
fn has_constants(op: Plain) -> bool
    ensures { result ≡ list_any is_raw (row_of op).operands }
{
    matches!(
        op,
        Plain::Data(DataOp::Match) | Plain::Event(EventOp::Acquire | EventOp::Fatal)
    )
}

fn letter_at(letters: &[Letter], index: usize) -> Option<Letter>
    ensures { result ≡ slice_get letters.now index }
{
    letters.get(index).copied()
}

fn is_constant(letter: Option<Letter>) -> bool
    ensures { result ≡ constant_letter letter }
{
    matches!(
        letter,
        Some(Letter::Byte) | Some(Letter::Word) | Some(Letter::DWord)
    )
}

// Marks the Locals that a form names.
#[cycle(named)]
fn mark_form(found: &mut Locals, op: Op, args: &[Node], body: &[Node])
    ensures { found.new.named ≡ marked_all found.old.named (form_locals (form_reads op (trees_of args.now) (trees_of body.now))
        (trees_of args.now) (trees_of body.now)) }
{
    match reads_of(op, args, body) {
        Reads::Nothing => (),
        Reads::Arguments => mark_all(found, args),
        Reads::Operands(op) => mark_operands(found, op, args),
        Reads::All => {
            mark_all(found, args);
            mark_all(found, body);
        }
    }
}

#[cycle(named)]
#[inline(always)]
fn mark_node(found: &mut Locals, node: &Node)
    ensures { found.new.named ≡ marked_all found.old.named (locals (node_tree node.now)) }
{
    match &node.term {
        Term::Local(index) => found.mark(*index),
        Term::Call { path: _, args } => mark_all(found, args),
        Term::Form { op, args, body } => mark_form(found, *op, args, body),
        _ => (),
    }
}

// Marks the Locals that the terms of a list name.
#[cycle(named)]
fn mark_all(found: &mut Locals, nodes: &[Node])
    ensures { found.new.named ≡ marked_all found.old.named (locals_all (trees_of nodes.now)) }
{
    for node in nodes {
        mark_node(found, node);
    }
}

// Marks the Locals that the arguments of an operator name, but for the constants among them, which few operators have.
#[cycle(named)]
fn mark_operands(found: &mut Locals, op: Plain, args: &[Node])
    ensures { found.new.named ≡ marked_all found.old.named (operand_locals (row_of op).operands (trees_of args.now)) }
{
    if has_constants(op) {
        mark_variables(found, letters(op), args);
    } else {
        mark_all(found, args);
    }
}

// A constant names no Local.
#[cycle(named)]
fn mark_operand(found: &mut Locals, letter: Option<Letter>, node: &Node)
    ensures { found.new.named ≡ marked_all found.old.named (letter_names (constant_letter letter) (node_tree node.now)) }
{
    if !is_constant(letter) {
        mark_node(found, node);
    }
}

// Marks the Locals that arguments name but for the constants among them.
#[cycle(named)]
#[inline(never)]
fn mark_variables(found: &mut Locals, letters: &[Letter], nodes: &[Node])
    ensures { found.new.named ≡ marked_all found.old.named (operand_locals (letters_as letters.now) (trees_of nodes.now)) }
{
    for (index, node) in nodes.iter().enumerate() {
        mark_operand(found, letter_at(letters, index), node);
    }
}

/// The Locals that the terms of a list name.
pub fn named_in(nodes: &[Node]) -> Locals
    ensures { result.named ≡ marked_all none_named (locals_all (trees_of nodes.now)) }
{
    let mut found = Locals::none();
    mark_all(&mut found, nodes);
    found
}
