//! The text of the console.
ghost use Rattle.std.specs.Prelude.{◌≡◌, ◌++◌, ◌<◌, length, All, IfOk, OnOk, decimal};
ghost use Rattle.iasl_messages.specs.Console as spec;

use crate::message::{Message, Messages};
use crate::place::Place;
use crate::severity::{Severity, count_of, severity_of, word_of};
use crate::texts::text_of;
use iasl_ports::list::{Text, Texts};
use itoa::{Buffer, Integer};
use std::alloc::{AllocError, Global};

fn put(out: &mut Vec<u8>, bytes: &[u8]) -> Result<(), AllocError>
    ensures { OnOk result (out.new.items ≡ out.old.items ++ bytes.now) }
{
    out.extend_from_slice(bytes)
}

fn put_number(out: &mut Vec<u8>, number: u64) -> Result<(), AllocError>
    ensures { OnOk result (out.new.items ≡ out.old.items ++ decimal number) }
{
    let mut buffer = Buffer::new();
    out.extend_from_slice(buffer.format(number).as_bytes())
}

fn put_name(out: &mut Vec<u8>, name: &[u8]) -> Result<(), AllocError>
    ensures { OnOk result (out.new.items ≡ out.old.items ++ spec.name_part name.now) }
{
    if !name.is_empty() {
        put(out, b": ")?;
        put(out, name)?;
    }
    Ok(())
}

fn put_text(out: &mut Vec<u8>, separator: &[u8], number: u16) -> Result<(), AllocError>
    ensures { OnOk result (out.new.items ≡ out.old.items ++ spec.text_part separator.now number) }
{
    put(out, word_of(severity_of(number)).as_bytes())?;
    put(out, b" ")?;
    put_number(out, u64::from(number))?;
    put(out, separator)?;
    put(out, text_of(number).as_bytes())
}

fn put_place(out: &mut Vec<u8>, place: &Place, file: &[u8]) -> Result<(), AllocError>
    ensures { OnOk result (out.new.items ≡ out.old.items ++ spec.place_part file.now place.now) }
{
    put(out, file)?;
    put(out, b":")?;
    put_number(out, u64::from(place.line))?;
    put(out, b":")?;
    put_number(out, u64::from(place.column))
}

fn put_full(out: &mut Vec<u8>, message: &Message, file: &[u8]) -> Result<(), AllocError>
    ensures { OnOk result (out.new.items ≡ out.old.items ++ spec.full_line file.now message.now) }
{
    put_place(out, &message.place, file)?;
    put(out, b": ")?;
    put_text(out, b": ", message.number)?;
    put_name(out, message.name.as_bytes())?;
    put(out, b"\n")?;
    Ok(())
}

fn put_brief(out: &mut Vec<u8>, message: &Message, file: &[u8]) -> Result<(), AllocError>
    ensures { OnOk result (out.new.items ≡ out.old.items ++ spec.brief_line file.now message.now) }
{
    put(out, file)?;
    put(out, b"(")?;
    put_number(out, u64::from(message.place.line))?;
    put(out, b") : ")?;
    put_text(out, b" : ", message.number)?;
    put(out, b"\n")?;
    Ok(())
}

fn put_message(
    out: &mut Vec<u8>,
    message: &Message,
    files: &[Text],
    brief: bool,
) -> Result<(), AllocError>
    requires { message.now.place.file < length files.now }
    ensures { OnOk result (out.new.items ≡ out.old.items ++ spec.message_line files.now brief message.now) }
{
    let file = files[message.place.file as usize].as_bytes();
    if brief {
        put_brief(out, message, file)
    } else {
        put_full(out, message, file)
    }
}

/// The lines of the messages, in the order of the list: `FILE:LINE:COLUMN: error 6040: TEXT: NAME`, or in
/// the brief form `FILE(LINE) : error 6040 : TEXT`.
pub fn render(
    alloc: Global,
    list: &Messages,
    files: &Texts,
    brief: bool,
) -> Result<Text, AllocError>
    requires { All (λ m. m.place.file < length files.now) list.now }
    ensures { IfOk result (λ text. text ≡ spec.messages_text files.now brief list.now) }
{
    let mut out = Vec::new(alloc);
    for message in list.as_slice() {
        put_message(&mut out, message, files.as_slice(), brief)?;
    }
    Text::from_vec(alloc, out)
}

/// The last line of the console: `2 errors, 0 warnings, 0 remarks`.
pub fn summary(alloc: Global, list: &Messages) -> Result<Text, AllocError>
    ensures { IfOk result (λ text. text ≡ spec.summary_line list.now) }
{
    let mut out = Vec::new(alloc);
    put_number(&mut out, count_of(list, Severity::Error) as u64)?;
    put(&mut out, b" errors, ")?;
    put_number(&mut out, count_of(list, Severity::Warning) as u64)?;
    put(&mut out, b" warnings, ")?;
    put_number(&mut out, count_of(list, Severity::Remark) as u64)?;
    put(&mut out, b" remarks\n")?;
    Text::from_vec(alloc, out)
}

/// The line of a table that was written: `t.aml: SSDT, 43 bytes`.
pub fn table_line(
    alloc: Global,
    name: &[u8],
    signature: &[u8],
    size: u64,
) -> Result<Text, AllocError>
    ensures { IfOk result (λ text. text ≡ spec.table_line name.now signature.now size) }
{
    let mut out = Vec::new(alloc);
    put(&mut out, name)?;
    put(&mut out, b": ")?;
    put(&mut out, signature)?;
    put(&mut out, b", ")?;
    put_number(&mut out, size)?;
    put(&mut out, b" bytes\n")?;
    Text::from_vec(alloc, out)
}

/// The line of a table that is listed: `SSDT 36 bytes`.
pub fn listed_line(alloc: Global, signature: &[u8], size: u64) -> Result<Text, AllocError>
    ensures { IfOk result (λ text. text ≡ spec.listed_line signature.now size) }
{
    let mut out = Vec::new(alloc);
    put(&mut out, signature)?;
    put(&mut out, b" ")?;
    put_number(&mut out, size)?;
    put(&mut out, b" bytes\n")?;
    Text::from_vec(alloc, out)
}

/// The line of a preprocessed text that was written: `t.i: preprocessed`.
pub fn preprocessed_line(alloc: Global, name: &[u8]) -> Result<Text, AllocError>
    ensures { IfOk result (λ text. text ≡ spec.preprocessed_line name.now) }
{
    let mut out = Vec::new(alloc);
    put(&mut out, name)?;
    put(&mut out, b": preprocessed\n")?;
    Text::from_vec(alloc, out)
}

/// The line of a generated table: `generated: 2 devices`.
pub fn devices_line(alloc: Global, count: u64) -> Result<Text, AllocError>
    ensures { IfOk result (λ text. text ≡ spec.devices_line count) }
{
    let mut out = Vec::new(alloc);
    put(&mut out, b"generated: ")?;
    put_number(&mut out, count)?;
    put(&mut out, b" devices\n")?;
    Text::from_vec(alloc, out)
}

/// The line of a template that was written: `hpet.asl: template HPET`.
pub fn template_line(alloc: Global, name: &[u8], signature: &[u8]) -> Result<Text, AllocError>
    ensures { IfOk result (λ text. text ≡ spec.template_line name.now signature.now) }
{
    let mut out = Vec::new(alloc);
    put(&mut out, name)?;
    put(&mut out, b": template ")?;
    put(&mut out, signature)?;
    put(&mut out, b"\n")?;
    Text::from_vec(alloc, out)
}
