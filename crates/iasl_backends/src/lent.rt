//! A list of boxed outputs that a caller lends.
ghost use Rattle.std.specs.Prelude.{◌≡◌, ◌≢◌, ◌∷◌, ◌++◌, [], List, true, false, IfSome, IfNone, IfOk, OnOk};
ghost use Rattle.std.specs.List.{filter, All};
ghost use Rattle.iasl_messages.specs.declared.place.Piece.{Piece as SpecPiece};
ghost use Rattle.iasl_backends.specs.Asked.{is_asked, has_kind, FirstOfKind, IsOneOfEach};
ghost use Rattle.iasl_backends.specs.declared.backend.Kind.{Kind as SpecKind};
ghost use Rattle.iasl_backends.specs.declared.backend.Kind.TheVariants as kinds;
ghost use Rattle.iasl_backends.specs.Each.{Each};
ghost use Rattle.iasl_backends.specs.Rendering.{rendering};

use crate::asked::Asked;
use crate::backend::{Backend, Kind};
use iasl_messages::place::Piece;
use std::alloc::{AllocError, Global};

fn kind_of_box(backend: &Box<dyn Backend>) -> Kind
    ensures { result ≡ kind_of backend.now }
{
    backend.kind()
}

fn is_asked_box(asked: Asked, backend: &Box<dyn Backend>) -> bool
    ensures { result ≡ is_asked asked (kind_of backend.now) }
{
    asked.has(backend.kind())
}

/// Four outputs, one of each kind, as a list.
#[tactic(auto, using(crate::proofs::KindLaws::four))]
pub fn one_of_each(
    alloc: Global,
    table: Box<dyn Backend>,
    c_text: Box<dyn Backend>,
    listing: Box<dyn Backend>,
    template: Box<dyn Backend>,
) -> Result<Vec<Box<dyn Backend>>, AllocError>
    requires table { kind_of table ≡ kinds.RawAml }
    requires c_text { kind_of c_text ≡ kinds.CHex }
    requires listing { kind_of listing ≡ kinds.Listing }
    requires template { kind_of template ≡ kinds.Template }
    ensures { IfOk result (λ backends. IsOneOfEach (λ b. kind_of b) backends.items) }
{
    let mut backends: Vec<Box<dyn Backend>> = Vec::new(alloc);
    backends.push(table)?;
    backends.push(c_text)?;
    backends.push(listing)?;
    backends.push(template)?;
    Ok(backends)
}

/// Lets the outputs go whose kinds are not asked for. The others stay in their order.
pub fn keep_asked(backends: &mut Vec<Box<dyn Backend>>, asked: Asked)
    ensures { backends.new.items ≡ filter (λ b. is_asked asked (kind_of b)) backends.old.items }
{
    backends.retain(
        move |backend: &Box<dyn Backend>| -> bool
            ensures { result ≡ is_asked asked (kind_of backend.now) }
        { is_asked_box(asked, backend) },
    );
}

fn clear_one(backend: &mut Box<dyn Backend>)
    ensures kind { kind_of backend.new ≡ kind_of backend.old }
    ensures pieces { pieces backend.new ≡ [] }
    ensures open { finished backend.new ≡ false }
{
    backend.clear();
}

/// Clears each output.
pub fn clear_all(backends: &mut Vec<Box<dyn Backend>>)
    ensures { Each (λ b b2. (kind_of b2 ≡ kind_of b) × (pieces b2 ≡ []) × (finished b2 ≡ false)) backends.old.items backends.new.items }
{
    for i in 0..backends.len() {
        clear_one(&mut backends[i]);
    }
}

fn piece_one(backend: &mut Box<dyn Backend>, piece: &Piece) -> Result<(), AllocError>
    requires { finished backend.old ≡ false }
    ensures kind { kind_of backend.new ≡ kind_of backend.old }
    ensures pieces { OnOk result (pieces backend.new ≡ pieces backend.old ++ piece.now ∷ []) }
    ensures open { OnOk result (finished backend.new ≡ false) }
{
    backend.piece(piece)
}

/// Gives the next piece to each output. After an error only `clear_all` leads to a known state.
pub fn piece_all(backends: &mut Vec<Box<dyn Backend>>, piece: &Piece) -> Result<(), AllocError>
    requires { All (λ b. finished b ≡ false) backends.old.items }
    ensures fed { OnOk result (Each (λ b b2. (kind_of b2 ≡ kind_of b) × (pieces b2 ≡ pieces b ++ piece.now ∷ []) × (finished b2 ≡ false))
        backends.old.items backends.new.items) }
    ensures kinds { Each (λ b b2. kind_of b2 ≡ kind_of b) backends.old.items backends.new.items }
{
    for i in 0..backends.len() {
        piece_one(&mut backends[i], piece)?;
    }
    Ok(())
}

fn finish_one(backend: &mut Box<dyn Backend>) -> Result<(), AllocError>
    requires { finished backend.old ≡ false }
    ensures kind { kind_of backend.new ≡ kind_of backend.old }
    ensures pieces { OnOk result (pieces backend.new ≡ pieces backend.old) }
    ensures done { OnOk result (finished backend.new ≡ true) }
{
    backend.finish()
}

/// Finishes each output. After an error only `clear_all` leads to a known state.
pub fn finish_all(backends: &mut Vec<Box<dyn Backend>>) -> Result<(), AllocError>
    requires { All (λ b. finished b ≡ false) backends.old.items }
    ensures done { OnOk result (Each (λ b b2. (kind_of b2 ≡ kind_of b) × (pieces b2 ≡ pieces b) × (finished b2 ≡ true)) backends.old.items
        backends.new.items) }
    ensures kinds { Each (λ b b2. kind_of b2 ≡ kind_of b) backends.old.items backends.new.items }
{
    for i in 0..backends.len() {
        finish_one(&mut backends[i])?;
    }
    Ok(())
}

// Gives pieces to each output, in order. After an error only `clear_all` leads to a known state.
fn give_all(backends: &mut Vec<Box<dyn Backend>>, table: &[Piece]) -> Result<(), AllocError>
    requires { All (λ b. finished b ≡ false) backends.old.items }
    ensures fed { OnOk result (Each (λ b b2. (kind_of b2 ≡ kind_of b) × (pieces b2 ≡ pieces b ++ table.now) × (finished b2 ≡ false))
        backends.old.items backends.new.items) }
    ensures kinds { Each (λ b b2. kind_of b2 ≡ kind_of b) backends.old.items backends.new.items }
{
    for piece in table {
        piece_all(backends, piece)?;
    }
    Ok(())
}

/// Makes the text of each output over the pieces of a table, whatever it held before. After an error only `clear_all`
/// leads to a known state.
pub fn render_all(backends: &mut Vec<Box<dyn Backend>>, table: &[Piece]) -> Result<(), AllocError>
    ensures rendered { OnOk result
        (Each (λ b b2. (kind_of b2 ≡ kind_of b) × (pieces b2 ≡ table.now) × (finished b2 ≡ true)) backends.old.items backends.new.items) }
    ensures done { OnOk result (All (λ b. finished b ≡ true) backends.new.items) }
    ensures shared { OnOk result (All (λ b. pieces b ≡ table.now) backends.new.items) }
    ensures kinds { Each (λ b b2. kind_of b2 ≡ kind_of b) backends.old.items backends.new.items }
{
    clear_all(backends);
    give_all(backends, table)?;
    finish_all(backends)
}

fn text_of_box(backend: &Box<dyn Backend>) -> &[u8]
    requires { finished backend.now ≡ true }
    ensures { result.now ≡ rendering (kind_of backend.now) (pieces backend.now) }
{
    backend.text()
}

/// The text of the first output of a kind, in bytes; none where there is no output of the kind.
pub fn text_of_kind(backends: &Vec<Box<dyn Backend>>, kind: Kind) -> Option<&[u8]>
    requires { All (λ b. finished b ≡ true) backends.now.items }
    ensures text { IfSome result
        (λ text. FirstOfKind (λ b. kind_of b) kind (λ b. text.now ≡ rendering kind (pieces b)) backends.now.items) }
    ensures shared { (all : List SpecPiece) → All (λ b. pieces b ≡ all) backends.now.items →
        IfSome result (λ text. text.now ≡ rendering kind all) }
    ensures none { IfNone result (All (λ b. kind_of b ≢ kind) backends.now.items) }
{
    for backend in backends {
        if kind_of_box(backend) == kind {
            return Some(text_of_box(backend));
        }
    }
    None
}

/// The text of the outputs of a kind, of which there is one at least, in bytes.
pub fn rendered_text(backends: &Vec<Box<dyn Backend>>, kind: Kind) -> &[u8]
    requires done { All (λ b. finished b ≡ true) backends.now.items }
    requires there { has_kind (λ b. kind_of b) kind backends.now.items ≡ true }
    ensures { (all : List SpecPiece) → All (λ b. pieces b ≡ all) backends.now.items → result.now ≡ rendering kind all }
{
    match text_of_kind(backends, kind) {
        Some(text) => text,
        None => unreachable!(),
    }
}
