use asl_lexer::token::{Token, TokenKind, Tokens};
use asl_lexer::tokens;
use iasl_messages::message::{Message, Messages, Stage};
use iasl_messages::place::{Line, Lines, Place};
use iasl_ports::list::{List, Text};
use std::alloc::{AllocError, Global};

fn letter_of(kind: TokenKind) -> char {
    match kind {
        TokenKind::Word => 'w',
        TokenKind::Path => 'p',
        TokenKind::Number => 'n',
        TokenKind::Text => 't',
        TokenKind::Symbol => 's',
    }
}

fn put_place(out: &mut String, place: Place) -> Result<(), AllocError> {
    let file = place.file;
    let line = place.line;
    let column = place.column;
    if file > 0 {
        return write!(out, "{file}:{line}:{column}");
    }
    write!(out, "{line}:{column}")
}

fn put_number(out: &mut String, number: u64) -> Result<(), AllocError> {
    if number > 0 {
        return write!(out, " {number}");
    }
    Ok(())
}

fn put_token(alloc: Global, out: &mut String, token: &Token) -> Result<(), AllocError> {
    out.push(letter_of(token.kind))?;
    put_place(out, token.place)?;
    put_number(out, token.number)?;
    let text = String::from_utf8_lossy(alloc, token.text.as_bytes())?;
    write!(out, " {text};")
}

fn put_tokens(alloc: Global, out: &mut String, tokens: &Tokens) -> Result<(), AllocError> {
    for token in tokens.as_slice() {
        put_token(alloc, out, token)?;
    }
    Ok(())
}

fn put_message(alloc: Global, out: &mut String, message: &Message) -> Result<(), AllocError> {
    let number = message.number;
    write!(out, "{number} ")?;
    put_place(out, message.place)?;
    let name = String::from_utf8_lossy(alloc, message.name.as_bytes())?;
    out.push_str(&name)
}

fn put_messages(alloc: Global, out: &mut String, messages: &Messages) -> Result<(), AllocError> {
    for message in messages.as_slice() {
        put_message(alloc, out, message)?;
    }
    Ok(())
}

// The tokens of lines that are short enough.
fn tokens_of(alloc: Global, lines: &Lines) -> Result<Tokens, Stage> {
    if !lines
        .list
        .as_slice()
        .iter()
        .all(|line| line.text.as_bytes().len() < 1000)
    {
        return Ok(Tokens::new(alloc));
    }
    tokens(alloc, lines)
}

// The tokens or messages of the lines.
fn put_answer(alloc: Global, out: &mut String, lines: &Lines) -> Result<(), AllocError> {
    match tokens_of(alloc, lines) {
        Ok(tokens) => put_tokens(alloc, out, &tokens),
        Err(Stage::Refused(messages)) => put_messages(alloc, out, &messages),
        Err(Stage::Memory) => out.push_str("memory"),
    }
}

// Whether the lines give these tokens or messages.
fn give(alloc: Global, lines: &Lines, expected: &[u8]) -> Result<bool, AllocError> {
    let mut out = String::new(alloc);
    put_answer(alloc, &mut out, lines)?;
    Ok(out.as_str().as_bytes() == expected)
}

fn no_lines(alloc: Global) -> Lines {
    Lines {
        files: List::new(alloc),
        list: List::new(alloc),
    }
}

fn add_line(
    alloc: Global,
    lines: &mut Lines,
    file: u32,
    number: u32,
    text: &[u8],
) -> Result<(), AllocError> {
    lines.list.push(Line {
        file,
        number,
        text: Text::from_bytes(alloc, text)?,
    })
}

// The lines of one file, cut at `|`.
fn lines_of(alloc: Global, source: &[u8]) -> Result<Lines, AllocError> {
    let mut lines = no_lines(alloc);
    let mut number = 1u32;
    for text in source.split(|byte| *byte == b'|') {
        add_line(alloc, &mut lines, 0, number, text)?;
        number = number.saturating_add(1);
    }
    Ok(lines)
}

fn is_right(alloc: Global, source: &[u8], expected: &[u8]) -> Result<bool, AllocError> {
    let lines = lines_of(alloc, source)?;
    give(alloc, &lines, expected)
}

// A source, and its tokens or its first fault.
static SOURCES: [(&[u8], &[u8]); 53] = [
    // sources that give their tokens
    (b"", b""),
    (
        b"Name (X, 5)",
        b"w1:1 NAME;s1:6 (;w1:7 X;s1:8 ,;n1:10 5 ;s1:11 );",
    ),
    (b"\t_a1 \tb_2|x", b"w1:2 _A1;w1:7 B_2;w2:1 X;"),
    (
        b"\\ \\_SB.PCI0 ^x.y ^^^A a.b.c",
        b"p1:1 \\;p1:3 \\_SB.PCI0;p1:13 ^X.Y;p1:18 ^^^A;p1:23 A.B.C;",
    ),
    (
        b"^ ^^5 ^^=6 a^=b a^b",
        b"s1:1 ^;s1:3 ^;s1:4 ^;n1:5 5 ;s1:7 ^;s1:8 ^=;n1:10 6 ;w1:12 A;s1:13 ^=;w1:15 B;w1:17 A;p1:18 ^B;",
    ),
    (b"\\5\\\\", b"p1:1 \\;n1:2 5 ;p1:3 \\;p1:4 \\;"),
    (
        b"0 017 10 0x1f 0xABCDEF 00 5_",
        b"n1:1 ;n1:3 15 ;n1:7 10 ;n1:10 31 ;n1:15 11259375 ;n1:24 ;n1:27 5 ;w1:28 _;",
    ),
    (b"18446744073709551615", b"n1:1 18446744073709551615 ;"),
    (
        b"0xFFFFFFFFFFFFFFFF 01777777777777777777777",
        b"n1:1 18446744073709551615 ;n1:20 18446744073709551615 ;",
    ),
    (b"\"\" \"ab c\"d", b"t1:1 ;t1:4 ab c;w1:10 D;"),
    (
        b"\"\\a\\b\\f\\n\\r\\t\\v\\\"\\'\\\\\"",
        b"t1:1 \x07\x08\x0c\x0a\x0d\x09\x0b\"'\\;",
    ),
    (
        b"\"A\\x42\" \"\\1\\12\\1011\\x4g\\x414\"",
        b"t1:1 AB;t1:9 \x01\x0aA1\x04gA4;",
    ),
    (b"\"// /* \t\"//\"/*|a", b"t1:1 // /* \t;w2:1 A;"),
    (b"a/* b /* |\"\\ // ***/c/**/d", b"w1:1 A;w2:11 C;w2:16 D;"),
    (
        b"( ) { } [ ] , ; ! ~ * / % + - < > = & |",
        b"s1:1 (;s1:3 );s1:5 {;s1:7 };s1:9 [;s1:11 ];s1:13 ,;s1:15 ;;s1:17 !;s1:19 ~;s1:21 *;s1:23 /;s1:25 %;s1:27 +;s1:29 -;s1:31 <;\
            s1:33 >;s1:35 =;s1:37 &;",
    ),
    (
        b"++ -- << >> <= >= == != && +=",
        b"s1:1 ++;s1:4 --;s1:7 <<;s1:10 >>;s1:13 <=;s1:16 >=;s1:19 ==;s1:22 !=;s1:25 &&;s1:28 +=;",
    ),
    (
        b"-= *= /= %= <<= >>= &=",
        b"s1:1 -=;s1:4 *=;s1:7 /=;s1:10 %=;s1:13 <<=;s1:17 >>=;s1:21 &=;",
    ),
    (
        b"<<<=>>>== ===!==+++",
        b"s1:1 <<;s1:3 <=;s1:5 >>;s1:7 >=;s1:9 =;s1:11 ==;s1:13 =;s1:14 !=;s1:16 =;s1:17 ++;s1:19 +;",
    ),
    (b"/ /==a/b", b"s1:1 /;s1:3 /=;s1:5 =;w1:6 A;s1:7 /;w1:8 B;"),
    (b"((a))", b"s1:1 (;s1:2 (;w1:3 A;s1:4 );s1:5 );"),
    // bad sources that give their first fault
    (b"a $", b"6010 1:3"),
    (b"\t@", b"6010 1:2"),
    (b"a.", b"6010 1:2"),
    (b"a.|b", b"6010 1:2"),
    (b"a..b", b"6010 1:2"),
    (b"a.5", b"6010 1:2"),
    (b"\\.a", b"6010 1:2"),
    (b"a\r", b"6010 1:2"),
    (b"a \x80", b"6010 1:3"),
    (b"12A", b"6010 1:3"),
    (b"089", b"6010 1:2"),
    (b"0178", b"6010 1:4"),
    (b"0X5", b"6010 1:2"),
    (b"0x", b"6010 1:2"),
    (b"0xg", b"6010 1:2"),
    (b"0x5g", b"6010 1:4"),
    (b"0b", b"6010 1:2"),
    (b"1 18446744073709551616", b"6014 1:3"),
    (b"0x10000000000000000", b"6014 1:1"),
    (b"99999999999999999999abc", b"6014 1:1"),
    (b"a \"b|c\"", b"6011 1:3"),
    (b"a \"b", b"6011 1:3"),
    (b"\"\x80", b"6011 1:1"),
    (b"\"\\q", b"6011 1:1"),
    (b"\"\\\"", b"6011 1:1"),
    (b"\"\\", b"6011 1:1"),
    (b"a\"b\\x80\"", b"6013 1:4"),
    (b"\"\\0\"", b"6013 1:2"),
    (b"\"\\400\"", b"6013 1:2"),
    (b"\"\\q\\z\" $", b"6013 1:2"),
    (b"\"\\x\"", b"6013 1:2"),
    (b"\"a\x00\x80\"", b"6010 1:3"),
    (b"a /*/ |b", b"6012 1:3"),
];

#[test]
fn sources_give_their_tokens_or_their_first_fault(rt: HostRuntime) -> Result<(), AllocError> {
    for (source, expected) in &SOURCES {
        assert!(rt; is_right(rt.alloc(), source, expected)?);
    }
    Ok(())
}

// Where each token of a line begins and ends: the columns of its first character and behind its last.
static SPANS: [(&[u8], &[(u32, u32)]); 4] = [
    (b"A 12345,0x1F ", &[(1, 2), (3, 8), (8, 9), (9, 13)]),
    (b"\"\" \"a\\x41\\\"\"0", &[(1, 3), (4, 13), (13, 14)]),
    (b" ^^Ab.cD>>=~7", &[(2, 9), (9, 12), (12, 13), (13, 14)]),
    (
        b"^ 017;longer_than_inline",
        &[(1, 2), (3, 6), (6, 7), (7, 25)],
    ),
];

fn have_spans(tokens: &Tokens, spans: &[(u32, u32)]) -> bool {
    for (token, span) in tokens.as_slice().iter().zip(spans) {
        if token.place.column != span.0 || token.end != span.1 {
            return false;
        }
    }
    tokens.len() == spans.len()
}

fn has_spans(alloc: Global, source: &[u8], spans: &[(u32, u32)]) -> Result<bool, AllocError> {
    let lines = lines_of(alloc, source)?;
    match tokens_of(alloc, &lines) {
        Ok(tokens) => Ok(have_spans(&tokens, spans)),
        Err(_) => Ok(false),
    }
}

#[test]
fn tokens_keep_where_they_end(rt: HostRuntime) -> Result<(), AllocError> {
    for (source, spans) in &SPANS {
        assert!(rt; has_spans(rt.alloc(), source, spans)?);
    }
    Ok(())
}

// Lines of some files: the file of each, its number in it, and its text.
static PLACED: [(u32, u32, &[u8]); 4] = [
    (0, 1, b"a | b || |= c"),
    (1, 7, b" d /*"),
    (0, 3, b"*/ e"),
    (2, 4, b" /* /*"),
];

fn placed(alloc: Global, count: usize) -> Result<Lines, AllocError> {
    let mut lines = no_lines(alloc);
    for (file, number, text) in PLACED.iter().take(count) {
        add_line(alloc, &mut lines, *file, *number, text)?;
    }
    Ok(lines)
}

// Whether so many of the placed lines give these tokens or messages.
fn are_right(alloc: Global, count: usize, expected: &[u8]) -> Result<bool, AllocError> {
    let lines = placed(alloc, count)?;
    give(alloc, &lines, expected)
}

#[test]
fn tokens_stand_in_their_file_and_line(rt: HostRuntime) -> Result<(), AllocError> {
    let tokens = b"w1:1 A;s1:3 |;w1:5 B;s1:7 ||;s1:10 |=;w1:13 C;w1:7:2 D;w3:4 E;";
    assert!(rt; are_right(rt.alloc(), 3, tokens)?);
    assert!(rt; are_right(rt.alloc(), 4, b"6012 2:4:2")?);
    Ok(())
}
