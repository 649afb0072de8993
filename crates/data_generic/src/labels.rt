//! Where labels stand.
ghost use Rattle.std.specs.Prelude.{◌≡◌, IfOk};
ghost use Rattle.std.specs.Option.{option_map};
ghost use Rattle.data_generic.specs.Labels as spec;
ghost use Rattle.data_generic.specs.LabelTable.{AreLabelsOf};

use crate::types::{DataType, type_of_line};
use crate::values::size_of;
use crate::words::{name_in, name_key};
use data_text::field_line::FieldLine;
use indexmap::IndexMap;
use std::alloc::{AllocError, Global};

/// A label: the number of its line among the data lines, from 0, and the offset of the next byte behind it, where it is
/// known.
#[derive(Clone, Copy, PartialEq, Eq, Debug)]
pub struct Label {
    pub index: usize,
    pub offset: Option<u64>,
}

/// Labels by their names in lower case. The first of a name stays.
#[derive(Drop)]
pub(crate) struct Labels {
    table: IndexMap<Vec<u8>, Label>,
}

// The offset behind a line.
fn moved(offset: Option<u64>, size: Option<u64>) -> Option<u64>
    ensures { result ≡ spec.moved offset size }
{
    match (offset, size) {
        (Some(offset), Some(size)) => offset.checked_add(size),
        _ => None,
    }
}

fn behind_line(
    alloc: Global,
    offset: Option<u64>,
    line: &FieldLine,
) -> Result<Option<u64>, AllocError>
    ensures { IfOk result (λ behind. behind ≡ spec.behind_line offset line.now) }
{
    let size = size_of(alloc, type_of_line(line), line.value.as_slice())?;
    Ok(moved(offset, size))
}

// The name that a line declares, in lower case.
fn name_of(alloc: Global, line: &FieldLine) -> Result<Option<Vec<u8>>, AllocError>
    ensures { IfOk result (λ name. option_map (λ key. key.items) name ≡ spec.name_of line.now) }
{
    match type_of_line(line) {
        Some(DataType::Label) => match name_in(line.value.as_slice()) {
            Some(name) => Ok(Some(name_key(alloc, name)?)),
            None => Ok(None),
        },
        _ => Ok(None),
    }
}

impl Labels {
    ghost use Rattle.std.specs.Prelude.{◌≡◌, ◌+◌, ◌∷◌, ℕ, List, None, OnOk, IfOk};
    ghost use Rattle.std.specs.Option.{option_copied};
    ghost use Rattle.data_text.specs.declared.field_line.FieldLine.{FieldLine as SpecLine};
    ghost use Rattle.data_generic.specs.LabelTable.{label_at, label_for, told_with, with_label};

    fn new(alloc: Global) -> Labels
        ensures { (name : List ℕ) → label_at result name ≡ None }
    {
        Labels {
            table: IndexMap::new(alloc),
        }
    }

    // The label of a name in lower case.
    fn at(&self, key: &[u8]) -> Option<Label>
        ensures { result ≡ label_at self.now key.now }
    {
        match self.table.get(key) {
            Some(label) => Some(*label),
            None => None,
        }
    }

    // Takes a label of a new name.
    #[tactic(auto, using(crate::proofs::Tables::added))]
    fn add_new(&mut self, name: Vec<u8>, label: Label) -> Result<(), AllocError>
        requires { label_at self.old name.items ≡ None }
        ensures { OnOk result ((key : List ℕ) → label_at self.new key ≡ with_label name.items label (label_at self.old key) key) }
    {
        self.table.insert(name, label)?;
        Ok(())
    }

    // Takes a label, where there is none of its name yet.
    #[tactic(auto, using(crate::proofs::Tables::stays))]
    fn add(&mut self, name: Vec<u8>, label: Label) -> Result<(), AllocError>
        ensures { OnOk result ((key : List ℕ) → label_at self.new key ≡ with_label name.items label (label_at self.old key) key) }
    {
        match self.at(name.as_slice()) {
            Some(_) => Ok(()),
            None => self.add_new(name, label),
        }
    }

    // Takes the label that a line is, if it is one.
    fn take(
        &mut self,
        alloc: Global,
        index: usize,
        offset: Option<u64>,
        line: &FieldLine,
    ) -> Result<Option<u64>, AllocError>
        ensures { IfOk result (λ behind. (key : List ℕ) (lines : List SpecLine) → told_with self.old key index offset (line.now ∷ lines) ≡
            told_with self.new key (index + 1) behind lines) }
    {
        if let Some(name) = name_of(alloc, line)? {
            self.add(name, Label { index, offset })?;
        }
        behind_line(alloc, offset, line)
    }

    /// The first label of a name, which is compared without case.
    pub(crate) fn find(&self, alloc: Global, name: &[u8]) -> Result<Option<Label>, AllocError>
        ensures { IfOk result (λ label. label ≡ label_for self.now name.now) }
    {
        let key = name_key(alloc, name)?;
        Ok(self.at(key.as_slice()))
    }
}

/// The labels of data lines, which stand behind the 36 bytes of the header.
pub(crate) fn labels_of(alloc: Global, lines: &[FieldLine]) -> Result<Labels, AllocError>
    ensures { IfOk result (λ labels. AreLabelsOf labels lines.now) }
{
    let mut labels = Labels::new(alloc);
    let mut offset = Some(36);
    for (index, line) in lines.iter().enumerate() {
        offset = labels.take(alloc, index, offset, line)?;
    }
    Ok(labels)
}
