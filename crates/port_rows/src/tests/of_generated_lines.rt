use generated_lines::lines::device_lines;
use iasl_messages::place::Lines;
use std::alloc::AllocError;

// The lines of two devices.
static TWO_DEVICES: [&[u8]; 5] = [
    b"DefinitionBlock (\"\", \"SSDT\", 2, \"GENER8\", \"DEVICES\", 1)",
    b"{",
    b"Device (D000) { Name (_UID, 0x000) Method (VALU, 1) { Return (Arg0 + 0x000) } }",
    b"Device (D001) { Name (_UID, 0x001) Method (VALU, 1) { Return (Arg0 + 0x001) } }",
    b"}",
];

// Whether the lines are these, in order, of the one file.
fn are(lines: &Lines, wanted: &[&[u8]]) -> bool {
    let mut same = lines.files.len() == 0 && lines.list.len() == wanted.len();
    for (i, text) in wanted.iter().enumerate() {
        same = same
            && lines.list.get(i).is_some_and(|line| line.text.as_bytes() == *text
                && line.file == 0
                && line.number as usize == i + 1);
    }
    same
}

#[test]
fn two_devices(rt: HostRuntime) -> Result<(), AllocError> {
    let lines = device_lines(rt.alloc(), 2)?;
    assert!(rt; are(&lines, &TWO_DEVICES));
    Ok(())
}

#[test]
fn the_most_devices(rt: HostRuntime) -> Result<(), AllocError> {
    let lines = device_lines(rt.alloc(), 4096)?;
    assert_eq!(rt; lines.list.len(), 4099);
    let last: &[u8] =
        b"Device (DFFF) { Name (_UID, 0xFFF) Method (VALU, 1) { Return (Arg0 + 0xFFF) } }";
    assert!(rt;
        lines
            .list
            .get(4097)
            .is_some_and(|line| line.text.as_bytes() == last)
    );
    Ok(())
}
