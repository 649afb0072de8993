//! The bytes of the table as an array of C.
ghost use Rattle.std.specs.Prelude.{◌≡◌, ◌++◌, [], true, false, OnOk, IfOk};
ghost use Rattle.std.specs.List.{flat_map};
ghost use Rattle.iasl_backends.specs.Table.{rows};
ghost use Rattle.iasl_backends.specs.CText.{c_byte, c_row, c_text};
ghost use Rattle.iasl_backends.specs.Rendering.{rendering};
ghost use Rattle.iasl_backends.specs.declared.backend.Kind.TheVariants as kinds;

use crate::backend::{Backend, Kind};
use crate::table::Table;
use crate::text::{put, put_pair};
use iasl_messages::place::Piece;
use iasl_ports::list::{behind, front};
use std::alloc::{AllocError, Global};

/// The output that is the bytes of the table as an array of C.
#[derive(Drop)]
pub struct CHex {
    alloc: Global,
    table: Table,
    text: Vec<u8>,
    done: bool,
    ghost rendered: { done ≡ true → text.items ≡ rendering kinds.CHex table.taken },
}

impl CHex {
    /// The output before its first piece.
    pub fn new(alloc: Global) -> CHex
        ensures pieces { ⟦<CHex as Backend>⟧.pieces result ≡ [] }
        ensures open { ⟦<CHex as Backend>⟧.finished result ≡ false }
    {
        CHex {
            alloc,
            table: Table::new(alloc),
            text: Vec::new(alloc),
            done: false,
        }
    }
}

fn put_byte(out: &mut Vec<u8>, byte: u8) -> Result<(), AllocError>
    ensures { OnOk result (out.new.items ≡ out.old.items ++ c_byte byte) }
{
    put(out, b" 0x")?;
    put_pair(out, byte)?;
    put(out, b",")
}

fn put_bytes(out: &mut Vec<u8>, row: &[u8]) -> Result<(), AllocError>
    ensures { OnOk result (out.new.items ≡ out.old.items ++ flat_map c_byte row.now) }
{
    for byte in row {
        put_byte(out, *byte)?;
    }
    Ok(())
}

fn put_row(out: &mut Vec<u8>, row: &[u8]) -> Result<(), AllocError>
    ensures { OnOk result (out.new.items ≡ out.old.items ++ c_row row.now) }
{
    put(out, b"   ")?;
    put_bytes(out, row)?;
    put(out, b"\n")
}

fn put_rows(out: &mut Vec<u8>, bytes: &[u8]) -> Result<(), AllocError>
    ensures { OnOk result (out.new.items ≡ out.old.items ++ flat_map c_row (rows 8 bytes.now)) }
{
    let mut rest = bytes;
    while !rest.is_empty() {
        put_row(out, front(rest, 8))?;
        rest = behind(rest, 8);
    }
    Ok(())
}

// The array of these bytes.
fn array_of(alloc: Global, bytes: &[u8]) -> Result<Vec<u8>, AllocError>
    ensures { IfOk result (λ text. text.items ≡ c_text bytes.now) }
{
    let mut out = Vec::new(alloc);
    put(&mut out, b"unsigned char AmlCode[] =\n{\n")?;
    put_rows(&mut out, bytes)?;
    put(&mut out, b"};\n")?;
    Ok(out)
}

impl Backend for CHex {
    ghost use Rattle.iasl_backends.specs.declared.backend.Kind.TheVariants as kinds;

    ghost kind_of = { λ output. kinds.CHex };

    ghost pieces = { λ output. output.table.taken };

    ghost finished = { λ output. output.done };

    fn kind(&self) -> Kind {
        Kind::CHex
    }

    fn clear(&mut self) {
        self.done = false;
        self.table.clear();
        self.text.clear();
    }

    fn piece(&mut self, piece: &Piece) -> Result<(), AllocError> {
        self.table.push(piece)
    }

    fn finish(&mut self) -> Result<(), AllocError> {
        self.text = array_of(self.alloc, &self.table.bytes)?;
        self.done = true;
        Ok(())
    }

    fn text(&self) -> &[u8] {
        &self.text
    }
}
