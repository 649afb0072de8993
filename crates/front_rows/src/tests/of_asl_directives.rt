use asl_directives::branches::{BranchFault, Branches};
use asl_directives::forms::{definition_of, include_line, include_of, message_of, name_alone};
use asl_directives::kind::{DirectiveKind, is_conditional, kind_of};

fn definitions_are_read() -> bool {
    let (name, text) = definition_of(b" A  1 2\t").unwrap_or((b"", b""));
    name == b"A".as_slice()
        && text == b"1 2".as_slice()
        && definition_of(b"A(x)").is_none()
        && name_alone(b" _a9 ").unwrap_or(b"") == b"_a9".as_slice()
        && name_alone(b"9a").is_none()
}

// Whether that is what is asked for, in quotes or not.
fn asks_for(text: &[u8], quoted: bool, name: &str) -> bool {
    match include_of(text) {
        Some(asked) => asked.quoted == quoted && asked.name == name,
        None => false,
    }
}

fn includes_are_read() -> bool {
    asks_for(b" \"a b\" ", true, "a b")
        && asks_for(b"<a\">", false, "a\"")
        && include_of(b"\"a\" b").is_none()
        && include_of(b"\"\xff\"").is_none()
        && include_line(b" INCLUDE (\"f\") ").unwrap_or(b"") == b"f".as_slice()
        && include_line(b"Include (\"f\");").is_none()
}

fn kinds_are_read() -> bool {
    match kind_of(b"elif") {
        Some(kind) => {
            kind == DirectiveKind::ElseIf && is_conditional(kind) && kind_of(b"If").is_none()
        }
        None => false,
    }
}

#[test]
fn forms_are_read(rt: HostRuntime) {
    assert!(rt; definitions_are_read());
    assert!(rt; includes_are_read());
    assert!(rt; message_of(b"message(\"m\")").unwrap_or(b"") == b"m".as_slice());
    assert!(rt; kinds_are_read());
}

// Two conditionals, one in the other, of which the first is false and its `#elif` true.
fn turn(branches: &mut Branches) -> Result<bool, BranchFault> {
    branches.open(1, 2, false)?;
    let first = !branches.is_read() && branches.asks().unwrap_or(false);
    branches.else_if(true)?;
    let second = branches.is_read() && !branches.asks().unwrap_or(true);
    branches.open(3, 1, false)?;
    branches.else_()?;
    let third = branches.is_read();
    let closed = branches.end_if();
    branches.else_()?;
    let fourth = !branches.is_read() && branches.asks().is_none();
    Ok(first && second && third && closed && fourth && branches.end_if() && !branches.end_if())
}

#[test]
fn branches_turn(rt: HostRuntime) -> Result<(), BranchFault> {
    let mut branches = Branches::new(rt.alloc());
    assert!(rt; turn(&mut branches)?);
    Ok(())
}
