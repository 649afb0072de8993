ghost use Rattle.std.specs.Prelude.{◌≡◌};
ghost use Rattle.asl_numbers.specs.Numbers.{numbered_all};
ghost use Rattle.term_plans.specs.Plans.{plans_of};
ghost use Rattle.asl_tree.specs.View.{trees_of};

use super::terms_of;
use acpi_names::index::{BlockNames, names_of};
use asl_tree::term::{Node, Term, Word};
use descriptor_checks::check::{Resolved, resolved_names};
use descriptor_checks::described::described;
use descriptor_checks::told::sorted_mentions;
use descriptor_fields::declare::names_descriptors;
use descriptor_fields::strip::stripped;
use iasl_messages::message::Message;
use std::alloc::{AllocError, Global};
use std::test::Fail;

// The constants of fields among terms, in preorder.
fn put_constants(alloc: Global, out: &mut String, terms: &[Node]) -> Result<(), AllocError> {
    let mut left = Vec::new(alloc);
    for node in terms.iter().rev() {
        left.push(node)?;
    }
    for turn in 0..1000 {
        let Some(node) = left.pop() else {
            return Ok(());
        };
        match &node.term {
            Term::Word(Word::FieldPlace(number)) => {
                out.push_str(format!(in alloc; "{number} ")?.as_str())?;
            }
            Term::Call { args, .. } => {
                for arg in args.iter().rev() {
                    left.push(arg)?;
                }
            }
            Term::Form { args, body, .. } => {
                for inner in body.iter().rev() {
                    left.push(inner)?;
                }
                for arg in args.iter().rev() {
                    left.push(arg)?;
                }
            }
            _ => {}
        }
    }
    Ok(())
}

// Messages, each with its number, and its column from 0.
fn put_messages(alloc: Global, out: &mut String, messages: &[Message]) -> Result<(), AllocError> {
    for message in messages {
        let number = message.number;
        let column = message.place.column.wrapping_sub(1);
        out.push_str(format!(in alloc; "{number}@{column} ")?.as_str())?;
    }
    Ok(())
}

// What is told of uses of descriptors and of fields that are no constants.
fn put_faults(alloc: Global, out: &mut String, terms: &[Node]) -> Result<(), AllocError>
    requires { trees_of terms.now ≡ numbered_all 0 (plans_of terms.now) }
{
    let BlockNames { index, mentions } = names_of(alloc, terms)?;
    let table = described(alloc, &index, &mentions, terms)?;
    let sorted = sorted_mentions(alloc, &index, &table, &mentions)?;
    put_messages(alloc, out, &sorted.faults)
}

// What the terms of a block come to: how many there are with those that declare descriptors, and without them; the constants
// that fields are; and what is told of uses, each with its column.
fn outcome(alloc: Global, text: &str) -> Result<String, AllocError> {
    let Some(written) = terms_of(alloc, text)? else {
        return String::from_str(alloc, "refused");
    };
    let named = names_descriptors(&written);
    let Resolved { terms, uses } = resolved_names(alloc, written)?;
    let all = terms.len();
    let mut told = String::new(alloc);
    put_messages(alloc, &mut told, &uses.wrong)?;
    put_faults(alloc, &mut told, &terms)?;
    put_messages(alloc, &mut told, &uses.broken)?;
    let terms = stripped(alloc, terms)?;
    let left = terms.len();
    let mark = if named { "" } else { "no names " };
    let mut out = format!(in alloc; "{mark}{all} {left}: ")?;
    put_constants(alloc, &mut out, &terms)?;
    out.push_str(told.as_str())?;
    Ok(out)
}

// The terms of a block, and what they come to.
static FIELDS: [(&str, &str); 13] = [
    // Without names nothing changes.
    (
        "NAME ( B , RESOURCETEMPLATE ( ) { IO ( DECODE16 , 1 , 2 , 3 , 4 ) } )",
        "no names 1 1: ",
    ),
    // Bytes, and the descriptors before.
    (
        "NAME ( B , RESOURCETEMPLATE ( ) { QWORDMEMORY ( RESOURCEPRODUCER , POSDECODE , MINFIXED , MAXFIXED , CACHEABLE , READWRITE , 0 , \
            1 , 2 , 0 , 2 , , , RNG0 , ADDRESSRANGEMEMORY , TYPESTATIC ) } ) CREATEQWORDFIELD ( B , RNG0._MIN , MINV )",
        "3 2: 14 ",
    ),
    (
        "NAME ( B , RESOURCETEMPLATE ( ) { IRQNOFLAGS ( ) { 3 } IO ( DECODE16 , 1 , 2 , 3 , 4 , D ) } ) CREATEWORDFIELD ( B , D._MAX , M )",
        "3 2: 7 ",
    ),
    // In the braces of another descriptor.
    (
        "NAME ( B , RESOURCETEMPLATE ( ) { FIXEDIO ( 1 , 2 , A ) STARTDEPENDENTFN ( 0 , 0 ) { FIXEDIO ( 1 , 2 , D ) } } ) \
            NAME ( N , D._LEN ) NAME ( O , A._BAS )",
        "5 3: 9 1 ",
    ),
    // Bits where buffer fields are counted in bits, also inside of the index, and bytes in what they lie over.
    (
        "NAME ( B , RESOURCETEMPLATE ( ) { IRQ ( EDGE , ACTIVEHIGH , EXCLUSIVE , D ) { 3 } } ) CREATEBITFIELD ( B , D._HE , H ) \
            CREATEFIELD ( B , ADD ( D._SHR , 0 ) , D._INT , S )",
        "4 3: 24 28 8 ",
    ),
    // A field that does not begin with a byte.
    (
        "NAME ( B , RESOURCETEMPLATE ( ) { IRQ ( EDGE , ACTIVEHIGH , EXCLUSIVE , D ) { 3 } } ) NAME ( N , D._SHR )",
        "3 2: 3 6056@27 ",
    ),
    // The first member of a list.
    (
        "NAME ( B , RESOURCETEMPLATE ( ) { INTERRUPT ( , EDGE , ACTIVELOW , , , , D ) { 7 , 8 } } ) CREATEDWORDFIELD ( B , D._INT , I )",
        "3 2: 5 ",
    ),
    // A descriptor of a method, and one of the scope around.
    (
        "METHOD ( M ) { NAME ( B , RESOURCETEMPLATE ( ) { FIXEDIO ( 1 , 2 , D ) } ) RETURN ( D._LEN ) }",
        "1 1: 3 ",
    ),
    (
        "NAME ( B , RESOURCETEMPLATE ( ) { FIXEDIO ( 1 , 2 , D ) } ) METHOD ( M ) { RETURN ( \\D._LEN ) }",
        "3 2: 3 ",
    ),
    // One segment more is another place, and so is a field that the descriptor does not have.
    (
        "NAME ( B , RESOURCETEMPLATE ( ) { FIXEDIO ( 1 , 2 , D ) } ) NAME ( N , D._MIN ) NAME ( O , D._LEN._LEN )",
        "4 3: ",
    ),
    // A member of a Package.
    (
        "NAME ( B , RESOURCETEMPLATE ( ) { FIXEDIO ( 1 , 2 , D ) } ) NAME ( N , PACKAGE ( ) { D._LEN } )",
        "3 2: 3 ",
    ),
    // What is printed, and the test of a loop.
    (
        "NAME ( B , RESOURCETEMPLATE ( ) { FIXEDIO ( 1 , 2 , D ) } ) METHOD ( M ) { PRINTF ( \"%o , \\D._LEN ) FOR ( , \\D._BAS ) { } }",
        "3 2: 3 1 ",
    ),
    // A Scope of a path that is declared behind it, and below another one there.
    (
        "NAME ( B , RESOURCETEMPLATE ( ) { FIXEDIO ( 1 , 2 , D ) } ) DEVICE ( A ) { SCOPE ( R ) { DEVICE ( C ) { } } } DEVICE ( R ) { }",
        "4 3: ",
    ),
];

#[test]
fn fields_are_constants(rt: HostRuntime) -> Result<(), Fail> {
    let alloc = rt.alloc();
    for (text, want) in &FIELDS {
        assert_eq!(rt; outcome(alloc, text)?.as_str(), *want);
    }
    Ok(())
}

const BEFORE: &str = "NAME ( B , RESOURCETEMPLATE ( ) { FIXEDIO ( 1 , 2 , D ) } )";

// What terms come to behind those that declare D.
fn outcome_behind(alloc: Global, text: &str) -> Result<String, AllocError> {
    let source = format!(in alloc; "{BEFORE} {text}")?;
    outcome(alloc, source.as_str())
}

// Terms behind those that declare D, and what is told of them.
static USES: [(&str, &str); 21] = [
    // A descriptor has no value.
    ("NAME ( N , D )", "6050@22 "),
    ("METHOD ( M ) { D }", "6050@23 "),
    ("METHOD ( M ) { RETURN ( D ) }", "6050@25 "),
    ("NAME ( N , PACKAGE ( ) { D } )", "6050@26 "),
    ("METHOD ( M ) { PRINTF ( \"%o , D ) }", "6050@27 "),
    ("METHOD ( M ) { FOR ( D , 1 , D ) { } }", "6050@25 6050@29 "),
    // Neither it nor its field is a place.
    ("METHOD ( M ) { STORE ( 1 , D ) }", "6050@27 "),
    ("METHOD ( M ) { STORE ( 1 , \\D._LEN ) }", "6050@27 "),
    ("METHOD ( M ) { SIZEOF ( \\D._LEN ) }", "6050@25 "),
    ("METHOD ( M ) { CONDREFOF ( D ) }", "6050@25 "),
    ("METHOD ( M ) { COPYOBJECT ( 1 , \\D._LEN ) }", "6050@27 "),
    ("METHOD ( M ) { FPRINTF ( D , \"x ) }", "6050@25 "),
    ("METHOD ( M ) { FPRINTF ( \\D._LEN , \"x ) }", "6050@25 "),
    // Nor an object of any kind, or of some.
    ("ALIAS ( D , A )", "6054@20 "),
    ("ALIAS ( D._LEN , A )", "6054@20 "),
    ("METHOD ( M ) { ACQUIRE ( D , 1 ) }", "6054@25 "),
    // By its name as it is written.
    ("METHOD ( M ) { ACQUIRE ( \\D._LEN , 1 ) }", "6054@25 "),
    ("METHOD ( M ) { \\D._LEN ( 1 ) }", "6051@23 "),
    // Each field by a path with more steps up than scopes.
    ("NAME ( N , ^D._LEN )", "3 6043@22 "),
    (
        "METHOD ( M ) { STORE ( ^^D._LEN , ^D._LEN ) }",
        "3 6043@25 6050@27 ",
    ),
    // A Scope of a descriptor.
    ("SCOPE ( D ) { NAME ( X , 1 ) }", "6054@20 "),
];

#[test]
fn tells_of_uses(rt: HostRuntime) -> Result<(), Fail> {
    let alloc = rt.alloc();
    for (text, want) in &USES {
        let told = outcome_behind(alloc, text)?;
        assert_eq!(rt; told.as_str().strip_prefix("3 2: "), Some(*want));
    }
    Ok(())
}
