use asl_lexer::token::{Token, TokenKind, Tokens};
use asl_parser::{Syntax, parse};
use asl_syntax::{Infix, NodeForm, SyntaxNode, SyntaxNodes, SyntaxText};
use bumpalo::Bump;
use iasl_messages::place::Place;
use iasl_ports::list::Text;
use std::alloc::{AllocError, Global};

/// What a word between blanks is.
fn kind_of(word: &[u8]) -> Option<TokenKind> {
    match word.first() {
        None => None,
        Some(b'0'..=b'9') => Some(TokenKind::Number),
        Some(b'A'..=b'Z') => Some(TokenKind::Word),
        Some(b'\\') => Some(TokenKind::Path),
        Some(b'"') => Some(TokenKind::Text),
        Some(_) => Some(TokenKind::Symbol),
    }
}

/// The number of one digit.
fn number_of(word: &[u8]) -> u64 {
    match word {
        [digit @ b'0'..=b'9'] => (*digit - b'0') as u64,
        _ => 0,
    }
}

fn token_of(
    alloc: Global,
    kind: TokenKind,
    column: usize,
    word: &[u8],
) -> Result<Token, AllocError> {
    Ok(Token {
        kind,
        place: Place {
            file: 0,
            line: 1,
            column: u32::try_from(column).unwrap_or(0),
        },
        end: 0,
        number: number_of(word),
        text: Text::from_bytes(alloc, word)?,
    })
}

/// The tokens of a text that has a blank between each two.
fn tokens_of(alloc: Global, text: &str) -> Result<Tokens, AllocError> {
    let mut tokens = Tokens::new(alloc);
    for (column, word) in text.split(' ').enumerate() {
        if let Some(kind) = kind_of(word.as_bytes()) {
            tokens.push(token_of(alloc, kind, column, word.as_bytes())?)?;
        }
    }
    Ok(tokens)
}

fn put_text(out: &mut String, text: &SyntaxText<'_>) -> Result<(), AllocError> {
    for byte in text.as_bytes() {
        out.push(char::from(*byte))?;
    }
    Ok(())
}

/// Writes the operator of a tree before its operands, with its column.
fn put_operator(out: &mut String, op: Infix, place: Place) -> Result<(), AllocError> {
    let column = place.column;
    write!(out, "<{op:?}@{column} ")
}

/// Writes trees between two texts, with a blank behind each.
#[cycle(put)]
fn put_all(
    out: &mut String,
    opening: &str,
    raws: &[SyntaxNode<'_>],
    closing: &str,
    room: u8,
) -> Result<(), AllocError> {
    out.push_str(opening)?;
    if room > 0 {
        for raw in raws {
            put(out, raw, room - 1)?;
            out.push(' ')?;
        }
    }
    out.push_str(closing)
}

#[cycle(put)]
fn put_item(
    out: &mut String,
    word: &SyntaxText<'_>,
    args: &Option<SyntaxNodes<'_>>,
    body: &Option<SyntaxNodes<'_>>,
    room: u8,
) -> Result<(), AllocError> {
    put_text(out, word)?;
    if let Some(args) = args {
        put_all(out, "( ", args.as_slice(), ")", room)?;
    }
    if let Some(body) = body {
        put_all(out, "{ ", body.as_slice(), "}", room)?;
    }
    Ok(())
}

/// Writes an operator and its operands in angle brackets.
#[cycle(put)]
fn put_apply(
    out: &mut String,
    op: Infix,
    place: Place,
    args: &SyntaxNodes<'_>,
    room: u8,
) -> Result<(), AllocError> {
    put_operator(out, op, place)?;
    put_all(out, "", args.as_slice(), ">", room)
}

/// Writes a tree.
#[cycle(put)]
fn put(out: &mut String, raw: &SyntaxNode<'_>, room: u8) -> Result<(), AllocError> {
    match &raw.form {
        NodeForm::Number { value, .. } => write!(out, "{value}"),
        NodeForm::Text { text, .. } => put_text(out, text),
        NodeForm::Item {
            word,
            args,
            body,
            ..
        } => put_item(out, word, args, body, room),
        NodeForm::Apply { place, op, args } => put_apply(out, *op, *place, args, room),
        NodeForm::List { items, .. } => put_all(out, "[ ", items.as_slice(), "]", room),
        NodeForm::Comma => out.push(','),
        NodeForm::Semicolon => out.push(';'),
        NodeForm::Empty => out.push('_'),
    }
}

/// Writes the tree of tokens, or how the call refuses them.
fn put_answer(alloc: Global, out: &mut String, tokens: &Tokens) -> Result<(), AllocError> {
    if tokens.len() > 1000 {
        return out.push_str("too long");
    }
    let arena = Bump::new(alloc);
    match parse(alloc, &arena, tokens) {
        Ok(unit) => put_all(out, "", unit.items.as_slice(), "", 20),
        Err(Syntax::Stop { token }) => write!(out, "stop {token}"),
        Err(Syntax::TooDeep { token }) => write!(out, "deep {token}"),
        Err(Syntax::Memory) => out.push_str("memory"),
    }
}

/// Whether that is the answer to a text.
fn gives(alloc: Global, text: &str, want: &str) -> Result<bool, AllocError> {
    let mut out = String::new(alloc);
    let tokens = tokens_of(alloc, text)?;
    put_answer(alloc, &mut out, &tokens)?;
    Ok(out.as_str() == want)
}

// A source, and its tree, or the token that no source has there.
static FORMS: [(&str, &str); 24] = [
    ("", ""),
    ("A B C", "A B C "),
    ("A ( ) B ( , ) C ( { } )", "A( ) B( _ _ ) C( [ ] ) "),
    (
        "A ( B , , { C , { D } } , ) { X = Y = ! Z + 1 * 2 - 3 < 4 ++ ; Q , ( 1 ) }",
        "A( B _ [ C [ D ] ] _ ){ <Assign@16 X <Assign@18 Y <Less@27 <Subtract@25 <Add@21 <LogicalNot@19 Z > <Multiply@23 1 2 > > 3 > \
            <Increment@29 4 > > > > ; Q , 1 } ",
    ),
    ("A { B - C - D }", "A{ <Subtract@5 <Subtract@3 B C > D > } "),
    (
        "A { B += C >>= D }",
        "A{ <AddAssign@3 B <ShiftRightAssign@5 C D > > } ",
    ),
    (
        "A { B || C && D | E ^ F & G == H < I << J + K * L }",
        "A{ <LogicalOr@3 B <LogicalAnd@5 C <Or@7 D <Xor@9 E <And@11 F <Equal@13 G <Less@15 H <ShiftLeft@17 I <Add@19 J <Multiply@21 K L > \
            > > > > > > > > > } ",
    ),
    (
        "A { B % C - D >> E >= F != G & H ^ I | J && K || L }",
        "A{ <LogicalOr@21 <LogicalAnd@19 <Or@17 <Xor@15 <And@13 <NotEqual@11 <GreaterEqual@9 <ShiftRight@7 <Subtract@5 <Modulo@3 B C > D > \
            E > F > G > H > I > J > K > L > } ",
    ),
    (
        "A { ! ~ B -- * ( C = D ) }",
        "A{ <Multiply@6 <LogicalNot@2 <Not@3 <Decrement@5 B > > > <Assign@9 C D > > } ",
    ),
    ("A { ( 2 ) 3 ; ( 4 ) }", "A{ 2 3 ; 4 } "),
    (
        "A { B [ C ] [ \\D ] ! E ( \"x ) { } }",
        "A{ <Index@6 <Index@3 B C > \\D > <LogicalNot@9 E( \"x ){ } > } ",
    ),
    // stops where no source goes on
    ("1", "stop 0"),
    ("A - B", "stop 1"),
    ("A ( B", "stop 3"),
    ("A ( ) { } {", "stop 5"),
    ("A { B ( 1 ) ( 2 ) }", "stop 6"),
    ("A { B ++ ( 2 ) }", "stop 4"),
    ("A { - B }", "stop 2"),
    ("A { ++ B }", "stop 2"),
    ("A { @ }", "stop 2"),
    ("A ( { , } )", "stop 3"),
    ("A ( { \\B } )", "stop 3"),
    ("A ( { B ( ) } )", "stop 4"),
    ("A ( B ; C )", "stop 3"),
];

#[test]
fn reads_each_form_or_stops(rt: HostRuntime) -> Result<(), AllocError> {
    for (text, want) in &FORMS {
        assert!(rt; gives(rt.alloc(), text, want)?);
    }
    Ok(())
}

// What stands before a part, the part, how many times it stands, what stands behind it, and how the source is refused.
static NESTINGS: [(&str, &str, u8, &str, &str); 11] = [
    // The brace and the operators before B are open at once.
    ("A { B -", " !", 127, " C } }", "stop 133"),
    ("A { B -", " !", 127, " C }", "deep 131"),
    ("A { B -", " !", 128, " C }", "deep 131"),
    // The leftmost operand stands under A and each operator.
    ("A { B", " - C", 127, " } }", "stop 258"),
    ("A { B", " - C", 128, " }", "deep 2"),
    ("A { B ( D )", " - C", 127, " }", "deep 4"),
    ("A { B ( D )", " - C", 200, "", "stop 406"),
    ("A { B ( D , E ( F ) )", " - C", 126, " }", "deep 8"),
    ("A { B ( D , E ( F ) )", " - C", 127, " }", "deep 4"),
    ("A { ( ! B )", " - C", 129, " }", "deep 3"),
    ("A { B ( , )", " - C", 127, " }", "deep 4"),
];

/// Whether that is the answer to a text with a part in it that stands many times.
fn gives_repeated(
    alloc: Global,
    before: &str,
    part: &str,
    count: u8,
    after: &str,
    want: &str,
) -> Result<bool, AllocError> {
    let mut text = String::from_str(alloc, before)?;
    for _ in 0..count {
        text.push_str(part)?;
    }
    text.push_str(after)?;
    gives(alloc, text.as_str(), want)
}

#[test]
fn nests_128_deep_and_no_deeper(rt: HostRuntime) -> Result<(), AllocError> {
    for (before, part, count, after, want) in &NESTINGS {
        assert!(rt; gives_repeated(rt.alloc(), before, part, *count, after, want)?);
    }
    Ok(())
}
