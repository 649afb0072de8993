use asl_fragments::fragment::{Fragment, FragmentKind, first_fragment};
use asl_fragments::{ends_in_comment, without_comments};
use std::alloc::{AllocError, Global};

// A line, whether it begins in a comment, and its fragments: a letter for the kind of each, and its length.
static FRAGMENTS: [(&[u8], bool, &[u8]); 12] = [
    (b"Name(_A1,0x1F)", false, b"i4 o1 i3 o1 n4 o1 "),
    (b"5_a b", false, b"n3 o1 i1 "),
    (b"\"a\\\"b\" c", false, b"q6 o1 i1 "),
    (b"\"a\\", false, b"q3 "),
    (b"a//b", false, b"i1 c3 "),
    (b"a/*b*/c", false, b"i1 c5 i1 "),
    (b"/*/ x", false, b"c5 "),
    (b"x*/y", true, b"c3 i1 "),
    (b"/ *", false, b"o1 o1 o1 "),
    (b"\"/*\"/**/", false, b"q4 c4 "),
    (b"/", true, b"c1 "),
    (b"", true, b""),
];

fn letter_of(kind: FragmentKind) -> char {
    match kind {
        FragmentKind::Identifier => 'i',
        FragmentKind::Number => 'n',
        FragmentKind::Quoted => 'q',
        FragmentKind::Comment => 'c',
        FragmentKind::Other => 'o',
    }
}

fn put_fragment(out: &mut String, fragment: Fragment) -> Result<(), AllocError> {
    let letter = letter_of(fragment.kind);
    let length = fragment.length;
    write!(out, "{letter}{length} ")
}

// The fragments of a line, each by the letter of its kind and its length.
fn put_fragments(out: &mut String, text: &[u8], in_comment: bool) -> Result<(), AllocError> {
    let mut rest = text;
    let mut inside = in_comment;
    for _ in 0..text.len() {
        if rest.is_empty() {
            break;
        }
        let fragment = first_fragment(rest, inside);
        put_fragment(out, fragment)?;
        rest = rest.split_at(fragment.length).1;
        inside = false;
    }
    Ok(())
}

// Whether these are the fragments of a line.
fn has_fragments(
    alloc: Global,
    text: &[u8],
    in_comment: bool,
    expected: &[u8],
) -> Result<bool, AllocError> {
    let mut out = String::new(alloc);
    put_fragments(&mut out, text, in_comment)?;
    Ok(out.as_str().as_bytes() == expected)
}

#[test]
fn fragments_of_a_line(rt: HostRuntime) -> Result<(), AllocError> {
    for (text, in_comment, expected) in &FRAGMENTS {
        assert!(rt; has_fragments(rt.alloc(), text, *in_comment, expected)?);
    }
    Ok(())
}

// A line, whether it begins in a comment, the line with blanks in the place of comments, and whether it ends in one.
static COMMENTS: [(&[u8], bool, &[u8], bool); 11] = [
    (b"a /* b */ c", false, b"a         c", false),
    (b"a // b", false, b"a     ", false),
    (b"a /* b", false, b"a     ", true),
    (b"a /*/", false, b"a    ", true),
    (b"a */ b", true, b"     b", false),
    (b"/* a */ b", true, b"        b", false),
    (b"", true, b"", true),
    (b"", false, b"", false),
    (b"\"// /*\"", false, b"\"// /*\"", false),
    (b"a /**/ /*", false, b"a        ", true),
    (b"// /*", false, b"     ", false),
];

// Whether a line without its comments is this one, and ends in a comment or not.
fn gives(
    alloc: Global,
    text: &[u8],
    in_comment: bool,
    line: &[u8],
    open: bool,
) -> Result<bool, AllocError> {
    let found = without_comments(alloc, text, in_comment)?;
    Ok(found.as_slice() == line && ends_in_comment(text, in_comment) == open)
}

#[test]
fn comments_of_a_line(rt: HostRuntime) -> Result<(), AllocError> {
    for (text, in_comment, expected, open) in &COMMENTS {
        assert!(rt; gives(rt.alloc(), text, *in_comment, expected, *open)?);
    }
    Ok(())
}
