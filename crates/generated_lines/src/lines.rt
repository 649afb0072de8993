//! The lines of a source of devices.
ghost use Rattle.std.specs.Prelude.{◌≡◌, ℕ, ◌+◌, ◌<◌, ◌≤◌, ◌++◌, ◌∷◌, [], length, All, slice_index, OnOk, IfOk};
ghost use Rattle.generated_lines.specs.Generated.{upper_digits, three_digits, device_text, line_at, devices_from, generated_lines};

use iasl_messages::place::{Line, LineList, Lines};
use iasl_ports::list::{Text, Texts};
use std::alloc::{AllocError, Global};

fn put(out: &mut Vec<u8>, bytes: &[u8]) -> Result<(), AllocError>
    ensures { OnOk result (out.new.items ≡ out.old.items ++ bytes.now) }
{
    out.extend_from_slice(bytes)
}

fn digit(number: u32) -> u8
    requires { number < 16 }
    ensures { result ≡ slice_index upper_digits number }
{
    b"0123456789ABCDEF"[number as usize]
}

fn put_number(out: &mut Vec<u8>, number: u32) -> Result<(), AllocError>
    requires { number < 4096 }
    ensures { OnOk result (out.new.items ≡ out.old.items ++ three_digits number) }
{
    put(
        out,
        &[
            digit(number / 256),
            digit(number / 16 % 16),
            digit(number % 16),
        ],
    )
}

// The device of a number.
fn device(alloc: Global, number: u32) -> Result<Text, AllocError>
    requires { number < 4096 }
    ensures { IfOk result (λ text. text ≡ device_text number) }
{
    let mut out = Vec::new(alloc);
    put(&mut out, b"Device (D")?;
    put_number(&mut out, number)?;
    put(&mut out, b") { Name (_UID, 0x")?;
    put_number(&mut out, number)?;
    put(&mut out, b") Method (VALU, 1) { Return (Arg0 + 0x")?;
    put_number(&mut out, number)?;
    put(&mut out, b") } }")?;
    Text::from_vec(alloc, out)
}

fn push_line(list: &mut LineList, number: u32, text: Text) -> Result<(), AllocError>
    ensures { OnOk result (list.new ≡ list.old ++ line_at number text ∷ []) }
{
    list.push(Line {
        file: 0,
        number,
        text,
    })
}

// Adds the devices, from number 0 on.
fn push_devices(alloc: Global, list: &mut LineList, count: u32) -> Result<(), AllocError>
    requires { count ≤ 4096 }
    ensures { OnOk result (list.new ≡ list.old ++ devices_from 0 count) }
{
    for number in 0..count {
        push_line(list, number + 3, device(alloc, number)?)?;
    }
    Ok(())
}

/// The source of so many devices: a block in which each device has its number and a method that adds it. No file is fetched for it.
pub fn device_lines(alloc: Global, count: u32) -> Result<Lines, AllocError>
    requires { count ≤ 4096 }
    ensures lines { IfOk result (λ lines. lines.list ≡ generated_lines count) }
    ensures files { IfOk result (λ lines. lines.files ≡ []) }
    ensures small { IfOk result (λ lines. All (λ line. (length line.text ≤ 100) × (line.file ≡ 0)) lines.list) }
{
    let mut list = LineList::new(alloc);
    push_line(
        &mut list,
        1,
        Text::from_bytes(
            alloc,
            b"DefinitionBlock (\"\", \"SSDT\", 2, \"GENER8\", \"DEVICES\", 1)",
        )?,
    )?;
    push_line(&mut list, 2, Text::from_bytes(alloc, b"{")?)?;
    push_devices(alloc, &mut list, count)?;
    push_line(&mut list, count + 3, Text::from_bytes(alloc, b"}")?)?;
    Ok(Lines {
        files: Texts::new(alloc),
        list,
    })
}
