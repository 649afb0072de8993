//! From the tree of the syntax to the program tree: each part pushes its node. What is rare is not inlined, so that frames are small.
ghost use Rattle.std.specs.Prelude.{None, Some, ◌≡◌, ◌++◌, ◌==◌, ◌&&◌, [], slice_get, length, nat_eq, OnOk, IfOk, IfErr, true, false};
ghost use Rattle.asl_shape.specs.Shapes as spec;
ghost use Rattle.term_plans.specs.Plans.{one_plan};
ghost use Rattle.asl_shape.specs.AtRaw as at;
ghost use Rattle.asl_words.specs.Operators as table;
ghost use Rattle.asl_words.specs.declared.operator.Slot.TheVariants as slots;
ghost use Rattle.asl_words.specs.Paths;
ghost use Rattle.term_plans.specs.Plans.{plan_of, plans_of, join};

use crate::around::Around;
use crate::fields::{self, BITS, Due, UnitName};
use crate::item::item_fault;
use crate::{lists, resources};
use asl_syntax::{NodeForm, SyntaxNode, SyntaxNodes, SyntaxText};
use asl_terms::brackets::{inside_of, is_given};
use asl_terms::elements::element_term;
use asl_terms::formats::count_arguments;
use asl_terms::leaf::{add_list, add_number, add_path, add_text, known_term, place_in};
use asl_terms::macros::first_term;
use asl_terms::nodes::{add_refused, push, take_last};
use asl_terms::settle::{add_missing, arrange, number_in, settle};
use asl_terms::symbol::{room_for, symbol_of};
use asl_terms::work::{NOWHERE, Work, evaluate, is_evaluated, tell};
use asl_tree::term::{Node, Op, Term};
use asl_words::operator::{Body, FieldWord, Parameter, Slot, TextMacro};
use asl_words::parameters::{
    body_as, element_parameters, macro_parameters, parameters_as, role_of,
};
use asl_words::paths::path_of;
use asl_words::resources::{descriptor_body, descriptor_parameters};
use iasl_messages::number::{VALUE_OUT_OF_RANGE, WRONG_ARGUMENT_FORM};
use iasl_messages::place::Place;
use resource_layout::descriptor::Descriptor;
use std::alloc::{AllocError, Global};
use word_meanings::meaning::{
    Reading, is_whole, meaning_of, reading_of, slot_as, takes_role, unfit,
};

// A part where it is read so, but for the range of a constant: a node behind the others, at its place, or at this one where it has none.
#[cycle(shape)]
#[tactic(auto, using(crate::proofs::Shapes::size_rules, crate::proofs::Shapes::bare_rules))]
fn add_bare(
    alloc: Global,
    work: &mut Work,
    nodes: &mut Vec<Node>,
    slot: &Slot,
    inside: &Around,
    place: &Place,
    raw: &SyntaxNode<'_>,
) -> Result<(), AllocError>
    ensures faults { OnOk result (work.new.faults.items ≡ work.old.faults.items ++ (at.bare_at slot.now inside.now raw.now).faults) }
    ensures made { OnOk result (plans_of nodes.new.items ≡ join (plans_of nodes.old.items)
        (at.one_at place.now raw.now (at.bare_at slot.now inside.now raw.now).made)) }
{
    match &raw.form {
        NodeForm::Number { place, value } => add_number(alloc, work, nodes, slot, place, *value),
        NodeForm::Text { place, text } => add_text(alloc, work, nodes, slot, place, text),
        NodeForm::List { place, items } => add_list(
            alloc,
            work,
            nodes,
            slot,
            place,
            items.as_slice(),
        ),
        NodeForm::Apply { place, op, args } => add_symbol(
            alloc,
            work,
            nodes,
            slot,
            symbol_of(*op),
            inside,
            place,
            args.as_slice(),
        ),
        NodeForm::Item {
            place,
            word,
            args,
            body,
        } => add_item(alloc, work, nodes, slot, inside, place, word, args, body),
        NodeForm::Comma => push(nodes, *place, Term::Omitted),
        NodeForm::Semicolon => push(nodes, *place, Term::Omitted),
        NodeForm::Empty => push(nodes, *place, Term::Omitted),
    }
}

// The same with its range.
#[cycle(shape)]
#[tactic(auto, using(crate::proofs::Shapes::size_rules))]
fn add(
    alloc: Global,
    work: &mut Work,
    nodes: &mut Vec<Node>,
    slot: &Slot,
    inside: &Around,
    place: &Place,
    raw: &SyntaxNode<'_>,
) -> Result<(), AllocError>
    ensures faults { OnOk result (work.new.faults.items ≡ work.old.faults.items ++ (at.shape_at slot.now inside.now raw.now).faults) }
    ensures made { OnOk result (plans_of nodes.new.items ≡ join (plans_of nodes.old.items)
        (at.one_at place.now raw.now (at.shape_at slot.now inside.now raw.now).made)) }
{
    // Most slots ask for no more.
    if !is_evaluated(*slot) {
        return add_bare(alloc, work, nodes, slot, inside, place, raw);
    }
    let before = work.faults.len();
    add_bare(alloc, work, nodes, slot, inside, place, raw)?;
    if work.faults.len() == before {
        let own = place_in(NOWHERE, raw);
        evaluate(alloc, work, inside.width, *slot, own, nodes)
    } else {
        Ok(())
    }
}

// A member of a list, unless it only separates others.
#[cycle(shape)]
#[tactic(auto, using(crate::proofs::Shapes::one_member_rules))]
fn add_member(
    alloc: Global,
    work: &mut Work,
    nodes: &mut Vec<Node>,
    slot: &Slot,
    inside: &Around,
    raw: &SyntaxNode<'_>,
) -> Result<(), AllocError>
    ensures faults { OnOk result (work.new.faults.items ≡ work.old.faults.items ++ (at.member_at slot.now inside.now raw.now).faults) }
    ensures made { OnOk result (plans_of nodes.new.items ≡ join (plans_of nodes.old.items)
        (at.member_at slot.now inside.now raw.now).made) }
{
    if lists::is_separator(raw) {
        return Ok(());
    }
    Ok(add(alloc, work, nodes, slot, inside, &NOWHERE, raw)?)
}

// The arguments of a call.
#[cycle(shape)]
#[tactic(auto, using(crate::proofs::Shapes::size_rules, crate::proofs::Shapes::operand_all))]
fn operands(
    alloc: Global,
    work: &mut Work,
    nodes: &mut Vec<Node>,
    inside: &Around,
    args: &[SyntaxNode<'_>],
) -> Result<(), AllocError>
    ensures faults { OnOk result
        (work.new.faults.items ≡ work.old.faults.items ++ (at.operands_at slots.Expression inside.now args.now).faults) }
    ensures made { OnOk result (plans_of nodes.new.items ≡ join (plans_of nodes.old.items)
        (at.operands_at slots.Expression inside.now args.now).made) }
{
    for raw in args {
        add(alloc, work, nodes, &Slot::Expression, inside, &NOWHERE, raw)?;
    }
    Ok(())
}

// An item.
#[cycle(shape)]
#[tactic(auto, unfolding(crate::specs::AtRaw::item_at), using(crate::proofs::Shapes::size_rules))]
fn add_item(
    alloc: Global,
    work: &mut Work,
    nodes: &mut Vec<Node>,
    slot: &Slot,
    inside: &Around,
    place: &Place,
    word: &SyntaxText<'_>,
    args: &Option<SyntaxNodes<'_>>,
    body: &Option<SyntaxNodes<'_>>,
) -> Result<(), AllocError>
    ensures faults { OnOk result
        (work.new.faults.items ≡ work.old.faults.items ++ (at.item_at slot.now inside.now place.now word.now args.now body.now).faults) }
    ensures made { OnOk result (plans_of nodes.new.items ≡ join (plans_of nodes.old.items)
        (one_plan place.now (at.item_at slot.now inside.now place.now word.now args.now body.now).made)) }
{
    let meaning = meaning_of(word.as_bytes(), is_given(body));
    if let Some(fault) = item_fault(*slot, *inside, meaning, inside_of(args), is_given(body)) {
        return add_refused(alloc, work, nodes, fault, *place);
    }
    add_reading(
        alloc,
        work,
        nodes,
        slot,
        reading_of(*slot, meaning, is_given(args)),
        inside,
        place,
        word,
        args,
        body,
    )
}

// An item as it is read.
#[cycle(shape)]
#[tactic(auto, using(crate::proofs::Shapes::size_rules, crate::proofs::Shapes::read_rules))]
fn add_reading(
    alloc: Global,
    work: &mut Work,
    nodes: &mut Vec<Node>,
    slot: &Slot,
    reading: Reading,
    inside: &Around,
    place: &Place,
    word: &SyntaxText<'_>,
    args: &Option<SyntaxNodes<'_>>,
    body: &Option<SyntaxNodes<'_>>,
) -> Result<(), AllocError>
    ensures faults { OnOk result (work.new.faults.items ≡ work.old.faults.items
        ++ (at.read_at slot.now place.now word.now reading inside.now args.now body.now).faults) }
    ensures made { OnOk result (plans_of nodes.new.items ≡ join (plans_of nodes.old.items)
        (one_plan place.now (at.read_at slot.now place.now word.now reading inside.now args.now body.now).made)) }
{
    match reading {
        Reading::Wrong => add_refused(alloc, work, nodes, unfit(*slot), *place),
        Reading::Path => add_path(alloc, work, nodes, place, word.as_bytes()),
        Reading::Call => add_call(alloc, work, nodes, inside, place, word, args),
        Reading::Element(word) => add_element(alloc, work, nodes, word, inside, place, args),
        Reading::Macro(of) => add_macro(alloc, work, nodes, of, inside, place, args),
        Reading::Template => add_template(alloc, work, nodes, inside, place, body),
        Reading::Descriptor(of) => add_descriptor(
            alloc, work, nodes, of, inside, place, args, body,
        ),
        Reading::Known(known) => push(nodes, *place, known_term(*slot, known)),
        Reading::Form(op) => {
            add_form(
                alloc,
                work,
                nodes,
                slot,
                op,
                inside,
                place,
                inside_of(args),
                body,
            )
        }
    }
}

// A name with its arguments.
#[cycle(shape)]
#[inline(never)]
#[tactic(auto, using(crate::proofs::Shapes::size_rules, crate::proofs::Shapes::call_rules))]
fn add_call(
    alloc: Global,
    work: &mut Work,
    nodes: &mut Vec<Node>,
    inside: &Around,
    place: &Place,
    word: &SyntaxText<'_>,
    args: &Option<SyntaxNodes<'_>>,
) -> Result<(), AllocError>
    ensures faults { OnOk result (work.new.faults.items ≡ work.old.faults.items
        ++ (spec.call_shape place.now (Paths.path_of word.now) (at.call_at inside.now args.now)).faults) }
    ensures made { OnOk result (plans_of nodes.new.items ≡ join (plans_of nodes.old.items)
        (one_plan place.now (spec.call_shape place.now (Paths.path_of word.now) (at.call_at inside.now args.now)).made)) }
{
    let Some(path) = path_of(alloc, word.as_bytes())? else {
        return add_refused(alloc, work, nodes, VALUE_OUT_OF_RANGE, *place);
    };
    let mut given = Vec::new(alloc);
    operands(alloc, work, &mut given, inside, inside_of(args))?;
    push(nodes, *place, Term::Call { path, args: given })
}

// A word of a field's list with its arguments.
#[cycle(shape)]
#[inline(never)]
#[tactic(auto, using(crate::proofs::Shapes::size_rules, crate::proofs::Shapes::element_rules))]
fn add_element(
    alloc: Global,
    work: &mut Work,
    nodes: &mut Vec<Node>,
    word: FieldWord,
    inside: &Around,
    place: &Place,
    args: &Option<SyntaxNodes<'_>>,
) -> Result<(), AllocError>
    ensures faults { OnOk result
        (work.new.faults.items ≡ work.old.faults.items ++ (at.element_at word place.now inside.now args.now).faults) }
    ensures made { OnOk result (plans_of nodes.new.items ≡ join (plans_of nodes.old.items)
        (one_plan place.now (at.element_at word place.now inside.now args.now).made)) }
{
    let parameters = element_parameters(word);
    let args = inside_of(args);
    let mut given = Vec::new(alloc);
    arguments(alloc, work, &mut given, parameters, inside, place, args)?;
    let term = element_term(alloc, word, &mut given)?;
    push(nodes, *place, term)
}

// A macro with its string.
#[cycle(shape)]
#[inline(never)]
#[tactic(auto, using(crate::proofs::Shapes::size_rules, crate::proofs::Shapes::macro_rules))]
fn add_macro(
    alloc: Global,
    work: &mut Work,
    nodes: &mut Vec<Node>,
    of: TextMacro,
    inside: &Around,
    place: &Place,
    args: &Option<SyntaxNodes<'_>>,
) -> Result<(), AllocError>
    ensures faults { OnOk result (work.new.faults.items ≡ work.old.faults.items ++ (at.macro_at of place.now inside.now args.now).faults) }
    ensures made { OnOk result (plans_of nodes.new.items ≡ join (plans_of nodes.old.items)
        (one_plan place.now (at.macro_at of place.now inside.now args.now).made)) }
{
    let parameters = macro_parameters(of);
    let args = inside_of(args);
    let mut given = Vec::new(alloc);
    arguments(alloc, work, &mut given, parameters, inside, place, args)?;
    push(nodes, *place, first_term(&mut given))
}

// A resource template with its descriptors.
#[cycle(shape)]
#[inline(never)]
#[tactic(auto, using(crate::proofs::Shapes::size_rules, crate::proofs::Shapes::template_rules))]
fn add_template(
    alloc: Global,
    work: &mut Work,
    nodes: &mut Vec<Node>,
    inside: &Around,
    place: &Place,
    body: &Option<SyntaxNodes<'_>>,
) -> Result<(), AllocError>
    ensures faults { OnOk result (work.new.faults.items ≡ work.old.faults.items ++ (at.template_at place.now inside.now body.now).faults) }
    ensures made { OnOk result (plans_of nodes.new.items ≡ join (plans_of nodes.old.items)
        (one_plan place.now (at.template_at place.now inside.now body.now).made)) }
{
    let braces = Body::Descriptors { chosen: false };
    let mut members = Vec::new(alloc);
    contents(alloc, work, &mut members, braces, inside, place, body)?;
    let term = resources::template(alloc, *place, &members)?;
    push(nodes, *place, term)
}

// A resource descriptor with its arguments and its braces.
#[cycle(shape)]
#[inline(never)]
#[tactic(auto, using(crate::proofs::Shapes::size_rules, crate::proofs::Shapes::descriptor_rules))]
fn add_descriptor(
    alloc: Global,
    work: &mut Work,
    nodes: &mut Vec<Node>,
    of: Descriptor,
    inside: &Around,
    place: &Place,
    args: &Option<SyntaxNodes<'_>>,
    body: &Option<SyntaxNodes<'_>>,
) -> Result<(), AllocError>
    ensures faults { OnOk result
        (work.new.faults.items ≡ work.old.faults.items ++ (at.descriptor_at of place.now inside.now args.now body.now).faults) }
    ensures made { OnOk result (plans_of nodes.new.items ≡ join (plans_of nodes.old.items)
        (one_plan place.now (at.descriptor_at of place.now inside.now args.now body.now).made)) }
{
    let parameters = descriptor_parameters(of);
    let args = inside_of(args);
    let mut given = Vec::new(alloc);
    arguments(alloc, work, &mut given, parameters, inside, place, args)?;
    let braces = descriptor_body(of);
    let mut members = Vec::new(alloc);
    contents(alloc, work, &mut members, braces, inside, place, body)?;
    let numbered = lists::is_number_list(braces, body);
    let term = resources::describe(alloc, work, of, *place, numbered, &given, &members)?;
    push(nodes, *place, term)
}

// What is written with a symbol, with its operands.
#[cycle(shape)]
#[tactic(auto, using(crate::proofs::Shapes::size_rules, crate::proofs::Shapes::symbol_rules))]
fn add_symbol(
    alloc: Global,
    work: &mut Work,
    nodes: &mut Vec<Node>,
    slot: &Slot,
    op: Op,
    inside: &Around,
    place: &Place,
    args: &[SyntaxNode<'_>],
) -> Result<(), AllocError>
    ensures faults { OnOk result (work.new.faults.items ≡ work.old.faults.items ++ (spec.symbol_shape inside.now.width slot.now place.now op
        (at.arguments_in_at (table.parameters_of op) place.now inside.now args.now)).faults) }
    ensures made { OnOk result (plans_of nodes.new.items ≡ join (plans_of nodes.old.items)
        (one_plan place.now (spec.symbol_shape inside.now.width slot.now place.now op
        (at.arguments_in_at (table.parameters_of op) place.now inside.now args.now)).made)) }
{
    if takes_role(*slot, role_of(op)) {
        add_form(
            alloc,
            work,
            nodes,
            &Slot::Expression,
            op,
            inside,
            place,
            args,
            &None,
        )
    } else {
        add_refused(alloc, work, nodes, unfit(*slot), *place)
    }
}

// An operator with its arguments and its braces, read so.
#[cycle(shape)]
#[tactic(auto, using(crate::proofs::Shapes::size_rules, crate::proofs::Shapes::form_rules))]
fn add_form(
    alloc: Global,
    work: &mut Work,
    nodes: &mut Vec<Node>,
    slot: &Slot,
    op: Op,
    inside: &Around,
    place: &Place,
    args: &[SyntaxNode<'_>],
    body: &Option<SyntaxNodes<'_>>,
) -> Result<(), AllocError>
    ensures faults { OnOk result (work.new.faults.items ≡ work.old.faults.items ++ (spec.form_shape inside.now.width op place.now
        (at.arguments_in_at (table.parameters_as op slot.now) place.now inside.now args.now)
        (at.contents_at (table.body_as op slot.now) (spec.within op inside.now) place.now body.now)).faults) }
    ensures made { OnOk result (plans_of nodes.new.items ≡ join (plans_of nodes.old.items)
        (one_plan place.now (spec.form_shape inside.now.width op place.now
        (at.arguments_in_at (table.parameters_as op slot.now) place.now inside.now args.now)
        (at.contents_at (table.body_as op slot.now) (spec.within op inside.now) place.now body.now)).made)) }
{
    let parameters = parameters_as(op, *slot);
    let mut given = Vec::with_capacity(alloc, room_for(op, parameters.len(), args.len()))?;
    arguments(alloc, work, &mut given, parameters, inside, place, args)?;
    count_arguments(alloc, work, op, *place, &given)?;
    settle(alloc, inside.width, op, *place, &mut given)?;
    let mut terms = Vec::new(alloc);
    contents(
        alloc,
        work,
        &mut terms,
        body_as(op, *slot),
        &lists::within(op, *inside),
        place,
        body,
    )?;
    arrange(op, &mut terms)?;
    let term = Term::Form {
        op,
        args: given,
        body: terms,
    };
    push(nodes, *place, term)
}

// The argument of this number, by its letter.
#[cycle(shape)]
#[tactic(auto, using(crate::proofs::Shapes::size_rules, crate::proofs::Shapes::one_argument_rules))]
fn add_argument(
    alloc: Global,
    work: &mut Work,
    nodes: &mut Vec<Node>,
    parameter: &Parameter,
    inside: &Around,
    place: &Place,
    args: &[SyntaxNode<'_>],
    i: usize,
) -> Result<(), AllocError>
    ensures faults { OnOk result (work.new.faults.items ≡ work.old.faults.items
        ++ (at.argument_at parameter.now place.now inside.now (slice_get args.now i)).faults) }
    ensures made { OnOk result (plans_of nodes.new.items ≡ join (plans_of nodes.old.items)
        (at.argument_at parameter.now place.now inside.now (slice_get args.now i)).made) }
{
    match args.get(i) {
        Some(raw) => {
            let slot = fields::slot_of(parameter.slot, raw);
            Ok(add(alloc, work, nodes, &slot, inside, place, raw)?)
        }
        None => Ok(add_missing(nodes, *place, *parameter)?),
    }
}

// The arguments of an operator, each by its letter.
#[cycle(shape)]
#[tactic(auto, using(crate::proofs::Shapes::size_rules, crate::proofs::Shapes::argument_all))]
pub fn arguments(
    alloc: Global,
    work: &mut Work,
    nodes: &mut Vec<Node>,
    parameters: &[Parameter],
    inside: &Around,
    place: &Place,
    args: &[SyntaxNode<'_>],
) -> Result<(), AllocError>
    ensures faults { OnOk result
        (work.new.faults.items ≡ work.old.faults.items ++ (at.arguments_in_at parameters.now place.now inside.now args.now).faults) }
    ensures made { OnOk result (plans_of nodes.new.items ≡ join (plans_of nodes.old.items)
        (at.arguments_in_at parameters.now place.now inside.now args.now).made) }
{
    for i in 0..parameters.len() {
        add_argument(alloc, work, nodes, &parameters[i], inside, place, args, i)?;
    }
    Ok(())
}

// What stands in braces, which most forms have not.
#[cycle(shape)]
#[inline(always)]
#[tactic(auto, using(crate::proofs::Shapes::size_rules, crate::proofs::Shapes::content_rules))]
fn contents(
    alloc: Global,
    work: &mut Work,
    nodes: &mut Vec<Node>,
    body: Body,
    inside: &Around,
    place: &Place,
    raws: &Option<SyntaxNodes<'_>>,
) -> Result<(), AllocError>
    ensures faults { OnOk result
        (work.new.faults.items ≡ work.old.faults.items ++ (at.contents_at body inside.now place.now raws.now).faults) }
    ensures made { OnOk result
        (plans_of nodes.new.items ≡ join (plans_of nodes.old.items) (at.contents_at body inside.now place.now raws.now).made) }
{
    match raws {
        Some(raws) => Ok(contents_of(alloc, work, nodes, body, inside, place, raws.as_slice())?),
        None => Ok(()),
    }
}

// What stands in braces that are written.
#[cycle(shape)]
#[inline(never)]
#[tactic(auto, using(crate::proofs::Shapes::size_rules, crate::proofs::Shapes::content_rules))]
fn contents_of(
    alloc: Global,
    work: &mut Work,
    nodes: &mut Vec<Node>,
    body: Body,
    inside: &Around,
    place: &Place,
    raws: &[SyntaxNode<'_>],
) -> Result<(), AllocError>
    ensures faults { OnOk result
        (work.new.faults.items ≡ work.old.faults.items ++ (at.contents_at body inside.now place.now (Some raws.now)).faults) }
    ensures made { OnOk result
        (plans_of nodes.new.items ≡ join (plans_of nodes.old.items) (at.contents_at body inside.now place.now (Some raws.now)).made) }
{
    match body {
        Body::No => Ok(()),
        Body::Terms => Ok(terms(alloc, work, nodes, inside, raws)?),
        Body::Bytes => {
            let slot = lists::byte_slot(raws);
            Ok(elements(alloc, work, nodes, &slot, inside, place, raws)?)
        }
        Body::Elements => Ok(elements(alloc, work, nodes, &Slot::Element, inside, place, raws)?),
        Body::FieldList => Ok(field_list(alloc, work, nodes, inside, place, raws)?),
        Body::Numbers { most } => {
            let slot = Slot::Constant { least: 0, most };
            Ok(elements(alloc, work, nodes, &slot, inside, place, raws)?)
        }
        Body::Descriptors { chosen } => {
            let slot = Slot::Descriptor { chosen };
            Ok(members(alloc, work, nodes, &slot, inside, raws)?)
        }
        Body::Cases => Ok(cases(alloc, work, nodes, inside, raws)?),
        Body::CaseMembers => {
            Ok(elements(alloc, work, nodes, &Slot::CaseMember, inside, place, raws)?)
        }
    }
}

// The list of a field.
#[cycle(shape)]
#[tactic(auto, using(crate::proofs::Shapes::size_rules, crate::proofs::Shapes::content_rules))]
fn field_list(
    alloc: Global,
    work: &mut Work,
    nodes: &mut Vec<Node>,
    inside: &Around,
    place: &Place,
    raws: &[SyntaxNode<'_>],
) -> Result<(), AllocError>
    ensures faults { OnOk result (work.new.faults.items ≡ work.old.faults.items
        ++ (spec.list_shape place.now (at.is_field_list_at spec.begin raws.now)
        (at.elements_at spec.begin None inside.now raws.now)).faults) }
    ensures made { OnOk result (plans_of nodes.new.items ≡ join (plans_of nodes.old.items)
        (spec.list_shape place.now (at.is_field_list_at spec.begin raws.now) (at.elements_at spec.begin None inside.now raws.now)).made) }
{
    if !fields::is_field_list(raws) {
        return Ok(tell(alloc, work, WRONG_ARGUMENT_FORM, *place)?);
    }
    Ok(field_elements(alloc, work, nodes, inside, raws)?)
}

#[cycle(shape)]
#[tactic(auto, using(crate::proofs::Shapes::size_rules, crate::proofs::FieldSteps::element_steps))]
fn field_elements(
    alloc: Global,
    work: &mut Work,
    nodes: &mut Vec<Node>,
    inside: &Around,
    raws: &[SyntaxNode<'_>],
) -> Result<(), AllocError>
    ensures faults { OnOk result
        (work.new.faults.items ≡ work.old.faults.items ++ (at.elements_at spec.begin None inside.now raws.now).faults) }
    ensures made { OnOk result
        (plans_of nodes.new.items ≡ join (plans_of nodes.old.items) (at.elements_at spec.begin None inside.now raws.now).made) }
{
    let mut due = Due::Element;
    let mut unit = None;
    for raw in raws {
        unit = add_part(alloc, work, nodes, due, unit, inside, raw)?;
        due = fields::due_behind(due, raw);
    }
    Ok(())
}

// A member of a field's list where this is due, and the unit of which the number of bits is to come behind it.
#[cycle(shape)]
#[tactic(auto, using(crate::proofs::Shapes::size_rules, crate::proofs::FieldSteps::part_rules))]
fn add_part(
    alloc: Global,
    work: &mut Work,
    nodes: &mut Vec<Node>,
    due: Due,
    unit: Option<UnitName>,
    inside: &Around,
    raw: &SyntaxNode<'_>,
) -> Result<Option<UnitName>, AllocError>
    ensures faults { OnOk result (work.new.faults.items ≡ work.old.faults.items ++ (at.part_at due unit inside.now raw.now).faults) }
    ensures made { OnOk result (plans_of nodes.new.items ≡ join (plans_of nodes.old.items) (at.part_at due unit inside.now raw.now).made) }
    ensures unit { IfOk result (λ next. next ≡ at.unit_at due unit inside.now raw.now) }
{
    match due {
        Due::Element => Ok(begin_element(alloc, work, nodes, inside, raw)?),
        Due::NameComma => {
            fields::miss_comma(alloc, work, unit, raw)?;
            Ok(unit)
        }
        Due::Bits => {
            add_bits(alloc, work, nodes, unit, inside, raw)?;
            Ok(None)
        }
        Due::Comma => Ok(None),
    }
}

// The term of a part, which is no node of its own.
#[cycle(shape)]
#[tactic(auto, using(crate::proofs::Shapes::size_rules))]
fn read_term(
    alloc: Global,
    work: &mut Work,
    nodes: &mut Vec<Node>,
    slot: &Slot,
    inside: &Around,
    raw: &SyntaxNode<'_>,
) -> Result<Term, AllocError>
    ensures faults { OnOk result (work.new.faults.items ≡ work.old.faults.items ++ (at.shape_at slot.now inside.now raw.now).faults) }
    ensures nodes { OnOk result (plans_of nodes.new.items ≡ plans_of nodes.old.items) }
    ensures made { IfOk result (λ term. plan_of term ≡ (at.shape_at slot.now inside.now raw.now).made) }
{
    add(alloc, work, nodes, slot, inside, &NOWHERE, raw)?;
    Ok(take_last(nodes))
}

// A whole element, or the name of a unit; a comma begins a gap.
#[cycle(shape)]
#[tactic(auto, using(crate::proofs::Shapes::size_rules, crate::proofs::FieldSteps::begin_rules))]
fn begin_element(
    alloc: Global,
    work: &mut Work,
    nodes: &mut Vec<Node>,
    inside: &Around,
    raw: &SyntaxNode<'_>,
) -> Result<Option<UnitName>, AllocError>
    ensures faults { OnOk result (work.new.faults.items ≡ work.old.faults.items ++ (at.begin_at inside.now raw.now).faults) }
    ensures made { OnOk result (plans_of nodes.new.items ≡ join (plans_of nodes.old.items) (at.begin_at inside.now raw.now).made) }
    ensures unit { IfOk result (λ next. next ≡ at.unit_at spec.begin None inside.now raw.now) }
{
    if lists::is_separator(raw) {
        return Ok(None);
    }
    let meaning = fields::meaning_in(raw);
    let slot = slot_as(Slot::FieldElement, meaning);
    let term = read_term(alloc, work, nodes, &slot, inside, raw)?;
    Ok(fields::begin(nodes, is_whole(meaning), fields::element_place(raw), term)?)
}

// The number of bits of a unit or of a gap.
#[cycle(shape)]
#[tactic(auto, using(crate::proofs::Shapes::size_rules, crate::proofs::FieldSteps::bits_rules))]
fn add_bits(
    alloc: Global,
    work: &mut Work,
    nodes: &mut Vec<Node>,
    unit: Option<UnitName>,
    inside: &Around,
    raw: &SyntaxNode<'_>,
) -> Result<(), AllocError>
    ensures faults { OnOk result (work.new.faults.items ≡ work.old.faults.items ++ (at.bits_at unit inside.now raw.now).faults) }
    ensures made { OnOk result (plans_of nodes.new.items ≡ join (plans_of nodes.old.items) (at.bits_at unit inside.now raw.now).made) }
{
    let term = read_term(alloc, work, nodes, &BITS, inside, raw)?;
    Ok(fields::add_unit(nodes, unit, fields::element_place(raw), number_in(&term))?)
}

// Elements with commas between them.
#[cycle(shape)]
#[tactic(auto, using(crate::proofs::Shapes::size_rules, crate::proofs::Shapes::content_rules))]
fn elements(
    alloc: Global,
    work: &mut Work,
    nodes: &mut Vec<Node>,
    slot: &Slot,
    inside: &Around,
    place: &Place,
    raws: &[SyntaxNode<'_>],
) -> Result<(), AllocError>
    ensures faults { OnOk result (work.new.faults.items ≡ work.old.faults.items
        ++ (spec.list_shape place.now (at.is_listed_at true raws.now) (at.members_at slot.now inside.now raws.now)).faults) }
    ensures made { OnOk result (plans_of nodes.new.items ≡ join (plans_of nodes.old.items)
        (spec.list_shape place.now (at.is_listed_at true raws.now) (at.members_at slot.now inside.now raws.now)).made) }
{
    if !lists::is_listed(raws) {
        return Ok(tell(alloc, work, WRONG_ARGUMENT_FORM, *place)?);
    }
    // every other member is a comma
    nodes.reserve_exact(raws.len() / 2 + 1)?;
    Ok(members(alloc, work, nodes, slot, inside, raws)?)
}

#[cycle(shape)]
#[tactic(auto, using(crate::proofs::Shapes::size_rules, crate::proofs::Shapes::member_steps))]
fn members(
    alloc: Global,
    work: &mut Work,
    nodes: &mut Vec<Node>,
    slot: &Slot,
    inside: &Around,
    raws: &[SyntaxNode<'_>],
) -> Result<(), AllocError>
    ensures faults { OnOk result (work.new.faults.items ≡ work.old.faults.items ++ (at.members_at slot.now inside.now raws.now).faults) }
    ensures made { OnOk result (plans_of nodes.new.items ≡ join (plans_of nodes.old.items)
        (at.members_at slot.now inside.now raws.now).made) }
{
    for raw in raws {
        add_member(alloc, work, nodes, slot, inside, raw)?;
    }
    Ok(())
}

#[cycle(shape)]
#[tactic(auto, using(crate::proofs::Shapes::size_rules, crate::proofs::Shapes::term_steps))]
pub fn terms(
    alloc: Global,
    work: &mut Work,
    nodes: &mut Vec<Node>,
    inside: &Around,
    raws: &[SyntaxNode<'_>],
) -> Result<(), AllocError>
    ensures faults { OnOk result (work.new.faults.items ≡ work.old.faults.items ++ (at.terms_at inside.now None raws.now).faults) }
    ensures made { OnOk result (plans_of nodes.new.items ≡ join (plans_of nodes.old.items) (at.terms_at inside.now None raws.now).made) }
{
    nodes.reserve_exact(lists::count_members(raws))?;
    let mut run = None;
    for raw in raws {
        add_member(alloc, work, nodes, &Slot::Term { run }, inside, raw)?;
        run = lists::run_after(run, raw);
    }
    Ok(())
}

// The Cases of a Switch, and its Default among them.
#[cycle(shape)]
#[tactic(auto, using(crate::proofs::Shapes::size_rules, crate::proofs::Shapes::case_steps))]
fn cases(
    alloc: Global,
    work: &mut Work,
    nodes: &mut Vec<Node>,
    inside: &Around,
    raws: &[SyntaxNode<'_>],
) -> Result<(), AllocError>
    ensures faults { OnOk result (work.new.faults.items ≡ work.old.faults.items ++ (at.cases_at inside.now false raws.now).faults) }
    ensures made { OnOk result (plans_of nodes.new.items ≡ join (plans_of nodes.old.items) (at.cases_at inside.now false raws.now).made) }
{
    nodes.reserve_exact(lists::count_members(raws))?;
    let mut defaulted = false;
    for raw in raws {
        add_member(alloc, work, nodes, &Slot::Branch { defaulted }, inside, raw)?;
        defaulted = lists::default_after(defaulted, raw);
    }
    Ok(())
}
