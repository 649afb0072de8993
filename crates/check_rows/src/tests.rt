mod of_block_checks;
mod of_copy_checks;
mod of_descriptor_checks;
mod of_field_checks;
mod of_region_checks;

use asl_lexer::token::{Token, TokenKind, Tokens};
use asl_parser::parse;
use asl_shape::shape;
use asl_tree::term::Node;
use bumpalo::Bump;
use iasl_messages::place::Place;
use iasl_ports::list::Text;
use std::alloc::{AllocError, Global};
use std::mem::replace;

const HEAD: &str = "DEFINITIONBLOCK ( \"a , \"DSDT , 2 , \"O , \"T , 1 ) {";

fn decimal(bytes: &[u8]) -> u64 {
    let mut number: u64 = 0;
    for byte in bytes {
        number = number
            .wrapping_mul(10)
            .wrapping_add(byte.wrapping_sub(b'0') as u64);
    }
    number
}

fn kind_of(bytes: &[u8]) -> Option<TokenKind> {
    if bytes.contains(&b'.') {
        return Some(TokenKind::Path);
    }
    match bytes.first() {
        None => None,
        Some(b'0'..=b'9') => Some(TokenKind::Number),
        Some(b'A'..=b'Z' | b'_') => Some(TokenKind::Word),
        Some(b'\\') => Some(TokenKind::Path),
        Some(b'"') => Some(TokenKind::Text),
        Some(_) => Some(TokenKind::Symbol),
    }
}

// Adds the tokens of a text that has a blank between each two; a token's column is its number, from 1.
fn add_tokens(alloc: Global, tokens: &mut Tokens, line: u32, text: &str) -> Result<(), AllocError> {
    let mut column: u32 = 0;
    for word in text.split(' ') {
        column = column.wrapping_add(1);
        let bytes = word.as_bytes();
        let Some(kind) = kind_of(bytes) else {
            continue;
        };
        let bytes = match bytes {
            [b'"', rest @ ..] => rest,
            _ => bytes,
        };
        tokens.push(Token {
            kind,
            place: Place {
                file: 0,
                line,
                column,
            },
            end: 0,
            number: decimal(bytes),
            text: Text::from_bytes(alloc, bytes)?,
        })?;
    }
    Ok(())
}

// The tokens of a block with the terms of a text in its second line.
fn tokens_of(alloc: Global, text: &str) -> Result<Tokens, AllocError> {
    let mut tokens = Tokens::new(alloc);
    add_tokens(alloc, &mut tokens, 1, HEAD)?;
    add_tokens(alloc, &mut tokens, 2, text)?;
    add_tokens(alloc, &mut tokens, 3, "}")?;
    Ok(tokens)
}

// The terms of a block with the terms of a text in its second line, or none where they are refused.
fn terms_of(alloc: Global, text: &str) -> Result<Option<Vec<Node>>, AllocError> {
    let tokens = tokens_of(alloc, text)?;
    if tokens.len() > 1000 {
        return Ok(None);
    }
    let arena = Bump::new(alloc);
    let Ok(unit) = parse(alloc, &arena, &tokens) else {
        return Ok(None);
    };
    let Ok(program) = shape(alloc, &unit) else {
        return Ok(None);
    };
    let Some(mut block) = program.blocks.into_vec().pop() else {
        return Ok(None);
    };
    Ok(Some(replace(&mut block.terms, Vec::new(alloc))))
}
