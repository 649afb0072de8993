//! What blocks come to, each and together.
ghost use Rattle.std.specs.Prelude.{◌≡◌, ◌++◌, ◌∷◌, [], List, Some, IfOk, OnOk};
ghost use Rattle.block_outcomes.specs.declared.outcome.Outcome.{Outcome as SpecOutcome};
ghost use Rattle.block_outcomes.specs.declared.outcome.Outcome.TheVariants.{Faulty};
ghost use Rattle.block_outcomes.specs.Joined as spec;
ghost use Rattle.block_outcomes.specs.Sorted.{AreSorted};

use crate::messages::{both, first_told, is_of_names};
use iasl_messages::message::Messages;
use iasl_messages::number::{TABLE_IS_TOO_LONG, TOO_FEW_LOCALS, TOO_MANY_COPIES};
use iasl_messages::place::Pieces;
use iasl_ports::list::{List, Text};
use std::alloc::{AllocError, Global};
use std::mem::replace;

/// A table in pieces, with its signature and the name that its block states for its file, which is empty where it states none.
#[derive(Drop)]
pub struct Table {
    pub signature: Text,
    pub own: Text,
    pub pieces: Pieces,
}

/// Tables in the order of their blocks.
pub type Tables = List<Table>;

/// What a source comes to.
#[derive(Drop)]
pub enum Compiled {
    /// Its tables, one for each block, and the notes on its text.
    Made { tables: Tables, notes: Messages },
    /// Its errors, of which there is at least one.
    Refused(Messages),
}

/// What one block comes to: the parts of its table, or its errors, which are of one class.
#[derive(Drop)]
pub enum Outcome {
    Done {
        signature: Text,
        own: Text,
        pieces: Pieces,
    },
    Faulty(Messages),
}

/// The classes of errors of blocks, each told where no block has an error of those before.
#[derive(Clone, Copy, PartialEq, Eq)]
pub enum Class {
    /// What is wrong with names.
    Names,
    /// With kinds, statements and fields.
    Kinds,
    /// Switches for which too few Locals are free, and Fors of which too many copies are made.
    Lowering,
    /// Tables that are too long.
    Sizes,
}

/// The errors of blocks by their classes, and the tables of those that have none.
#[derive(Drop)]
pub struct Sorted {
    pub names: Messages,
    pub kinds: Messages,
    pub lowering: Messages,
    pub sizes: Messages,
    pub tables: Tables,
}

// The class of the error of this number.
fn class_of(number: u16) -> Class
    ensures { result ≡ spec.class_of number }
{
    if is_of_names(number) {
        Class::Names
    } else if number == TOO_FEW_LOCALS || number == TOO_MANY_COPIES {
        Class::Lowering
    } else if number == TABLE_IS_TOO_LONG {
        Class::Sizes
    } else {
        Class::Kinds
    }
}

// The class of the first of some errors.
fn class_in(errors: &Messages) -> Option<Class>
    ensures { result ≡ spec.class_in errors.now }
{
    match errors.get(0) {
        Some(first) => Some(class_of(first.number)),
        None => None,
    }
}

/// Of no block.
pub fn none_sorted(alloc: Global) -> Sorted
    ensures { AreSorted [] result }
{
    Sorted {
        names: Messages::new(alloc),
        kinds: Messages::new(alloc),
        lowering: Messages::new(alloc),
        sizes: Messages::new(alloc),
        tables: Tables::new(alloc),
    }
}

// Adds messages behind others.
fn add_all(alloc: Global, list: &mut Messages, more: Messages) -> Result<(), AllocError>
    ensures { OnOk result (list.new ≡ list.old ++ more) }
{
    let before = replace(list, Messages::new(alloc));
    *list = both(before, more)?;
    Ok(())
}

// Errors of this class, behind the others of it.
fn put(alloc: Global, sorted: Sorted, class: Class, errors: Messages) -> Result<Sorted, AllocError>
    ensures { (outcomes : List SpecOutcome) → spec.class_in errors ≡ Some class → AreSorted outcomes sorted →
        IfOk result (AreSorted (outcomes ++ Faulty errors ∷ [])) }
{
    match class {
        Class::Names => {
            let mut all = sorted;
            add_all(alloc, &mut all.names, errors)?;
            Ok(all)
        }
        Class::Kinds => {
            let mut all = sorted;
            add_all(alloc, &mut all.kinds, errors)?;
            Ok(all)
        }
        Class::Lowering => {
            let mut all = sorted;
            add_all(alloc, &mut all.lowering, errors)?;
            Ok(all)
        }
        Class::Sizes => {
            let mut all = sorted;
            add_all(alloc, &mut all.sizes, errors)?;
            Ok(all)
        }
    }
}

// The errors of one block more, to those of their class.
fn with_errors(alloc: Global, sorted: Sorted, errors: Messages) -> Result<Sorted, AllocError>
    ensures { (outcomes : List SpecOutcome) → AreSorted outcomes sorted → IfOk result (AreSorted (outcomes ++ Faulty errors ∷ [])) }
{
    let class = class_in(&errors);
    match class {
        Some(class) => put(alloc, sorted, class, errors),
        None => Ok(sorted),
    }
}

/// The outcome of one block more.
pub fn with_outcome(alloc: Global, sorted: Sorted, outcome: Outcome) -> Result<Sorted, AllocError>
    ensures { (outcomes : List SpecOutcome) → AreSorted outcomes sorted → IfOk result (AreSorted (outcomes ++ outcome ∷ [])) }
{
    match outcome {
        Outcome::Done {
            signature,
            own,
            pieces,
        } => {
            let mut all = sorted;
            all.tables.push(Table {
                signature,
                own,
                pieces,
            })?;
            Ok(all)
        }
        Outcome::Faulty(errors) => with_errors(alloc, sorted, errors),
    }
}

/// What blocks come to together, with these notes on them.
pub fn join(sorted: Sorted, notes: Messages) -> Result<Compiled, AllocError>
    ensures { (outcomes : List SpecOutcome) → AreSorted outcomes sorted → IfOk result (λ it. it ≡ spec.joined notes outcomes) }
{
    let Sorted {
        names,
        kinds,
        lowering,
        sizes,
        tables,
    } = sorted;
    if !names.is_empty() {
        return Ok(Compiled::Refused(names));
    }
    let errors = first_told(kinds, first_told(lowering, sizes));
    if errors.is_empty() {
        Ok(Compiled::Made { tables, notes })
    } else {
        Ok(Compiled::Refused(both(errors, notes)?))
    }
}
