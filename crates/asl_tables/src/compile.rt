//! An ASL source to its tables, or its errors.
ghost use Rattle.std.specs.Prelude.{◌≡◌, ◌↔◌, ℕ, Bool, ◌<◌, ◌^◌, ◌++◌, ◌∷◌, [], length, All, IfOk, IfErr, IsTrue};
ghost use Rattle.acpi_values.specs.Paths.{AbsolutePath};
ghost use Rattle.acpi_values.specs.Revisions.{width_of};
ghost use Rattle.asl_tree.specs.Tree.{Trees};
ghost use Rattle.asl_tree.specs.View.{trees_of};
ghost use Rattle.aml_code.specs.Header.{fields_of};
ghost use Rattle.asl_parser.specs.Parse.{outcome};
ghost use Rattle.asl_shape.specs.Forms.{errors_at, source_errors, alone, IsBlockOf, AreBlocksOf, AreRight};
ghost use Rattle.asl_shape.specs.AtRaw.{Refuses};
ghost use Rattle.asl_syntax.specs.Written.{writtens};
ghost use Rattle.asl_syntax.specs.declared.raw.Raw.{Raw};
ghost use Rattle.asl_numbers.specs.Numbers.{nodes as node_count};
ghost use Rattle.asl_prints.specs.Forms.{formed_all};
ghost use Rattle.asl_prints.specs.Plans.{formed_plans};
ghost use Rattle.form_shapes.specs.Near.{AreNear};
ghost use Rattle.hidden_locals.specs.Switches.{without_switches};
ghost use Rattle.term_plans.specs.Plans.{Plans, plans_of};
ghost use Rattle.term_places.specs.Places.{places_of};
ghost use Rattle.source_pieces.specs.Places.{core_places};
ghost use Rattle.named_sessions.specs.Shaped.{AreFormed, AreNamed, AreShaped};
ghost use Rattle.asl_lower.specs.Nodes.{named_all};
ghost use Rattle.program_shapes.specs.Kept.{IsKeptSource, AreKeptAlone, HaveShortTexts};
ghost use Rattle.asl_fold.specs.Folds.{folded_where};
ghost use Rattle.aml_sizes.specs.Pieces.{joined_pieces};
ghost use Rattle.aml_writer.specs.Cuts.{IsCut};
ghost use Rattle.aml_writer.specs.Written.{IsTable};
ghost use Rattle.aml_sizes.specs.TableSizes.{RefusedFor};
ghost use Rattle.asl_tables.specs.Syntax.{at_token};
ghost use Rattle.asl_tables.specs.Ready.{FitsHeader, IsCoreOf};
ghost use Rattle.switch_checks.specs.Locals as locals;
ghost use Rattle.block_checks.specs.Findings.{AreNamesOf, IsNamed};
ghost use Rattle.block_checks.specs.Present.{IsPresenceOf};
ghost use Rattle.block_checks.specs.Told.{with_others};
ghost use Rattle.asl_tables.specs.Compiled.{its_table, its_pieces, lowered_as, of_table, of_right, of_terms, unlowered as not_lowered};
ghost use Rattle.asl_tables.specs.Compiled.{copies_of, unless_wrong};
ghost use Rattle.asl_tables.specs.Early.{WeighsNoMore, IsToldEarly};
ghost use Rattle.copy_checks.specs.Copies.{IsSizeOf, too_many_copies};
ghost use Rattle.asl_tables.specs.Compiled.{outcome_in, outcomes_in, noted_in, all_noted, of_lines, of_outcome, HasAsciiNames};
ghost use Rattle.asl_tables.specs.Compiled.{TellsWithin};
ghost use Rattle.asl_tables.specs.Reads.{IsReadOf, AreReadOf, IsRightRead, AreRightReads, items_in, IsSourceOf, IsRefusalOf, UnlessMemory};
ghost use Rattle.block_outcomes.specs.Joined.{first_told, joined};

use acpi_values::width::Width;
use aml_sizes::stop::WriteStop;
use aml_writer::write::write_block;
use asl_fold::fold::fold_where;
use asl_formats::program::forms;
use asl_lexer::token::Tokens;
use asl_lexer::tokens;
use asl_lower::lower::lower;
use asl_parser::{Syntax, parse};
use asl_shape::shape;
use asl_syntax::{RawUnit, SyntaxNode, place_at};
use asl_tree::program::{Block, Blocks};
use asl_tree::term::Node;
use block_checks::check::{CheckedBlock, check, first_class};
use block_checks::names::{Findings, FoundNames};
use block_outcomes::messages::{both, one_message, refusal};
use block_outcomes::outcome::{Compiled, Outcome, join, none_sorted, with_outcome};
use bumpalo::Bump;
use copy_checks::copies::{ProgramSize, copies_told, program_size};
use core_nodes::copied::copied_weight;
use core_nodes::count::core_nodes;
use form_presence::present::Presence;
use iasl_messages::message::{Message, Messages, Stage};
use iasl_messages::number::{NESTING_TOO_DEEP, SYNTAX};
use iasl_messages::place::{Line, Lines, Pieces, Place};
use iasl_ports::list::{List, Text};
use literal_checks::check::cut_literals;
use made_nodes::made::made_nodes;
use name_spelling::spell::spell;
use source_lines::lines::SourceLines;
use std::alloc::{AllocError, Global};
use std::mem::{drop, forget, replace};
use switch_checks::locals::few_locals;
use switch_loops::loops::loops;
use wrapped_externals::wrap::wrap_where;

/// The most tokens that are numbered.
const MOST_TOKENS: usize = 4_294_967_295;

/// How a table is written.
#[derive(Clone, Copy)]
pub struct Style {
    /// Whether Externals stand in Ifs that nothing enters.
    pub wrap: bool,
    /// Whether constants are folded.
    pub fold: bool,
    /// Whether 0, 1 and Ones are written by their opcodes where they are literals too.
    pub short: bool,
    /// Whether names have their shortest spelling.
    pub shorten: bool,
}

// The pieces of a core's block, with the texts of the lines.
fn pieces_of(
    alloc: Global,
    short: bool,
    lines: &SourceLines<'_>,
    block: Block,
) -> Result<Pieces, WriteStop>
    ensures table { IfOk result (λ pieces. IsTable block short (joined_pieces pieces)) }
    ensures cut { IfOk result (λ pieces. IsCut lines.now block short pieces) }
    ensures refused { IfErr result (RefusedFor block short) }
{
    let made = write_block(alloc, &block, lines, short);
    // the process ends soon, so nobody needs the room of the terms
    forget(block);
    made
}

// The table of a core's block in pieces, with the texts of the lines, or its refusal where that is too long.
fn write_core(
    alloc: Global,
    style: Style,
    lines: &SourceLines<'_>,
    block: Block,
) -> Result<Outcome, AllocError>
    ensures { (also : AbsolutePath → Bool) (terms : Trees) → IsCoreOf style.shorten also terms block →
        IfOk result (λ it. it ≡ of_table block.place block.signature block.file (its_table style also terms block)
        (its_pieces style lines.now (block.place ∷ places_of block.terms.items) (fields_of block) also terms)) }
{
    let signature = Text::from_bytes(alloc, block.signature.as_bytes())?;
    let own = Text::from_bytes(alloc, block.file.as_bytes())?;
    match pieces_of(alloc, style.short, lines, block) {
        Ok(pieces) => Ok(Outcome::Done {
            signature,
            own,
            pieces,
        }),
        Err(WriteStop::TooLong(message)) => Ok(Outcome::Faulty(one_message(alloc, message)?)),
        Err(WriteStop::Memory) => Err(AllocError),
    }
}

// Terms with what stands for their Fors and for what prints; where none of these stands in them, the terms as they are.
fn formed(alloc: Global, terms: Vec<Node>, present: Presence) -> Result<Vec<Node>, AllocError>
    requires numbers { node_count (plans_of terms.items) < 2 ^ 32 }
    requires present { IsPresenceOf (plans_of terms.items) present }
    ensures trees { IfOk result (λ plain. trees_of plain.items ≡ formed_all (trees_of terms.items)) }
    ensures plans { IfOk result (λ plain. plans_of plain.items ≡ formed_plans (plans_of terms.items)) }
{
    if !present.forms {
        return Ok(terms);
    }
    // (the nodes have the numbers before this one)
    let next = present.nodes as u32;
    let plain = forms(alloc, terms, next)?;
    Ok(plain)
}

// Terms with what stands for their Fors and for what prints, loops for their Switches, their symbolic operators named,
// and their constants folded where that is asked for.
#[tactic(auto, using(crate::proofs::Given::forms_given, source_pieces::proofs::Planned::places_planned))]
fn lowered_terms(
    alloc: Global,
    fold: bool,
    width: Width,
    terms: Vec<Node>,
    present: Presence,
) -> Result<Vec<Node>, AllocError>
    requires formed { AreFormed (Unit {0}) AreNamed (Unit {0}) (Unit {0}) (trees_of terms.items) }
    requires near { AreNear (trees_of terms.items) }
    requires numbers { node_count (plans_of terms.items) < 2 ^ 32 }
    requires present { IsPresenceOf (plans_of terms.items) present }
    ensures terms { IfOk result
        (λ core. trees_of core.items ≡ folded_where fold width (named_all (without_switches (formed_all (trees_of terms.items))))) }
    ensures places { IfOk result (λ core. places_of core.items ≡ core_places (plans_of terms.items)) }
{
    let plain = formed(alloc, terms, present)?;
    let turns = loops(alloc, plain)?;
    let named = lower(alloc, turns)?;
    fold_where(alloc, fold, width, named)
}

// The block with the terms of its core, whose Externals stand as they are and whose names are not spelled yet.
fn lowered(
    alloc: Global,
    style: Style,
    block: Block,
    present: Presence,
) -> Result<Block, AllocError>
    requires formed { AreFormed (Unit {0}) AreNamed (Unit {0}) (Unit {0}) (trees_of block.terms.items) }
    requires near { AreNear (trees_of block.terms.items) }
    requires numbers { node_count (plans_of block.terms.items) < 2 ^ 32 }
    requires present { IsPresenceOf (plans_of block.terms.items) present }
    ensures terms { IfOk result (λ core. trees_of core.terms.items ≡ lowered_as style (fields_of block) (trees_of block.terms.items)) }
    ensures places { IfOk result (λ core. places_of core.terms.items ≡ core_places (plans_of block.terms.items)) }
    ensures place { IfOk result (λ core. core.place ≡ block.place) }
    ensures file { IfOk result (λ core. core.file ≡ block.file) }
    ensures fields { IfOk result (λ core. fields_of core ≡ fields_of block) }
{
    let mut core = block;
    let terms = replace(&mut core.terms, Vec::new(alloc));
    core.terms = lowered_terms(
        alloc,
        style.fold,
        Width::of_revision(core.revision),
        terms,
        present,
    )?;
    Ok(core)
}

// What is told of a program of such a size with these terms of its core: nothing, or that too many copies are made.
fn core_errors(alloc: Global, size: ProgramSize, core: &[Node]) -> Result<Messages, AllocError>
    requires { AreShaped (trees_of core.now) }
    ensures { (block : Place) (ps : Plans) → IsSizeOf block ps size → IfOk result
        (λ told. told ≡ too_many_copies block ps (trees_of core.now)) }
{
    copies_told(alloc, size, core_nodes(core))
}

// What the copies of the steps of Fors weigh, where constants are folded or not; they are looked for where a For may stand.
fn steps_weight(terms: &[Node], present: Presence, fold: bool) -> u64
    requires { AreFormed (Unit {0}) AreNamed (Unit {0}) (Unit {0}) (trees_of terms.now) }
    ensures { WeighsNoMore fold result (trees_of terms.now) }
{
    if present.forms {
        copied_weight(terms, fold)
    } else {
        0
    }
}

// The most nodes that the lowering may make, so that copies of copies do not fill the machine before the table would be too long: twice as
// many as a table may have bytes, some 3 GB.
const MOST_MADE: u64 = 33_554_432;

// What is told of a program of such a size with these terms by the weight of the copies of its steps: nothing, where its nodes have
// numbers, or what would be told of its core.
fn copy_errors(
    alloc: Global,
    size: ProgramSize,
    terms: &[Node],
    present: Presence,
    fold: bool,
) -> Result<Messages, AllocError>
    requires formed { AreFormed (Unit {0}) AreNamed (Unit {0}) (Unit {0}) (trees_of terms.now) }
    requires near { AreNear (trees_of terms.now) }
    ensures { (block : Place) → IsSizeOf block (plans_of terms.now) size → IfOk result
        (IsToldEarly fold block (trees_of terms.now) (plans_of terms.now)) }
{
    copies_told(alloc, size, steps_weight(terms, present, fold))
}

// The same, before a copy is made. A program of which more would be made than a table has room for is not begun.
fn early_errors(
    alloc: Global,
    size: ProgramSize,
    terms: &[Node],
    present: Presence,
    fold: bool,
) -> Result<Messages, AllocError>
    requires formed { AreFormed (Unit {0}) AreNamed (Unit {0}) (Unit {0}) (trees_of terms.now) }
    requires near { AreNear (trees_of terms.now) }
    ensures { (block : Place) → IsSizeOf block (plans_of terms.now) size → IfOk result
        (IsToldEarly fold block (trees_of terms.now) (plans_of terms.now)) }
{
    let told = copy_errors(alloc, size, terms, present, fold)?;
    if told.is_empty() && made_nodes(terms) > MOST_MADE {
        return Err(AllocError);
    }
    Ok(told)
}

// The methods that leave too few Locals for their Switches, which are looked for where Switches stand.
#[tactic(auto, using(switch_checks::proofs::Absent::none_few))]
fn local_errors(alloc: Global, terms: &[Node], present: Presence) -> Result<Messages, AllocError>
    requires { IsPresenceOf (plans_of terms.now) present }
    ensures { IfOk result (λ ms. ms ≡ locals.few_locals (trees_of terms.now) (plans_of terms.now)) }
{
    if present.switches {
        few_locals(alloc, terms)
    } else {
        Ok(Messages::new(alloc))
    }
}

// The names of terms in which nothing is wrong, or else the methods that leave too few Locals for their Switches.
fn right_or_few(
    alloc: Global,
    terms: &[Node],
    present: Presence,
    names: FoundNames,
) -> Result<Findings, AllocError>
    ghost also: { AbsolutePath → Bool }
    requires names { AreNamesOf also (trees_of terms.now) names }
    requires present { IsPresenceOf (plans_of terms.now) present }
    ensures { IfOk result (λ found. IsNamed found (locals.few_locals (trees_of terms.now) (plans_of terms.now)) also (trees_of terms.now)) }
{
    let few = local_errors(alloc, terms, present)?;
    if few.is_empty() {
        Ok(Findings::Right(names))
    } else {
        Ok(Findings::Wrong(few))
    }
}

// What is wrong with terms, of which the checks gave these names and errors, or else Switches for which too few Locals are free; and
// where there is nothing of these, their names.
fn find(
    alloc: Global,
    terms: &[Node],
    present: Presence,
    names: Findings,
    errors: Messages,
) -> Result<Findings, AllocError>
    ghost told: { List Message × (AbsolutePath → Bool) }
    requires names { IsNamed names told.0 told.1 (trees_of terms.now) }
    requires present { IsPresenceOf (plans_of terms.now) present }
    ensures { IfOk result (λ found. IsNamed found
        (first_told (with_others told.0 errors) (locals.few_locals (trees_of terms.now) (plans_of terms.now))) told.1
        (trees_of terms.now)) }
{
    match first_class(names, errors)? {
        Findings::Right(names) => right_or_few(alloc, terms, present, names),
        Findings::Wrong(errors) => Ok(Findings::Wrong(errors)),
    }
}

// The table of a core that is lowered from terms with these names: with Externals in Ifs where that is asked for, and its names spelled.
fn written(
    alloc: Global,
    style: Style,
    lines: &SourceLines<'_>,
    block: Block,
    names: FoundNames,
) -> Result<Outcome, AllocError>
    ghost of: { Trees × (AbsolutePath → Bool) }
    requires room { FitsHeader (fields_of block) }
    requires formed { AreFormed (Unit {0}) AreNamed (Unit {0}) (Unit {0}) of.0 }
    requires near { AreNear of.0 }
    requires shaped { AreShaped (named_all (without_switches (formed_all of.0))) }
    requires names { AreNamesOf of.1 of.0 names }
    requires lowered { trees_of block.terms.items ≡ lowered_as style (fields_of block) of.0 }
    ensures { IfOk result (λ it. it ≡ of_right style lines.now block.place (places_of block.terms.items) block.file (fields_of block) of.1
        of.0) }
{
    let FoundNames {
        index,
        calls,
        described,
    } = names;
    let mut core = block;
    let lowered = replace(&mut core.terms, Vec::new(alloc));
    let terms = wrap_where(alloc, style.wrap, lowered)?;
    let spelled = spell(
        alloc,
        index,
        calls.as_slice(),
        described.as_slice(),
        style.shorten,
        terms,
    )?;
    core.terms = spelled;
    write_core(alloc, style, lines, core)
}

// The table of a block in which nothing is wrong, whose names are these, or that too many copies are made of it: its core is counted once
// it is lowered, and not made at all where the copies of the steps of its Fors alone are too many.
fn table_of(
    alloc: Global,
    style: Style,
    lines: &SourceLines<'_>,
    block: Block,
    present: Presence,
    names: FoundNames,
) -> Result<Outcome, AllocError>
    ghost of: { Trees × (AbsolutePath → Bool) }
    requires terms { trees_of block.terms.items ≡ of.0 }
    requires room { FitsHeader (fields_of block) }
    requires formed { AreFormed (Unit {0}) AreNamed (Unit {0}) (Unit {0}) of.0 }
    requires near { AreNear of.0 }
    requires present { IsPresenceOf (plans_of block.terms.items) present }
    requires shaped { AreShaped (named_all (without_switches (formed_all of.0))) }
    requires names { AreNamesOf of.1 of.0 names }
    ensures { IfOk result (λ it. it ≡
        unless_wrong (copies_of style (fields_of block) block.place of.0 (plans_of block.terms.items))
        (of_right style lines.now block.place (core_places (plans_of block.terms.items)) block.file (fields_of block) of.1 of.0)) }
{
    let size = program_size(block.place, &block.terms, present);
    let early = early_errors(alloc, size, &block.terms, present, style.fold)?;
    if !early.is_empty() {
        return Ok(Outcome::Faulty(early));
    }
    let core = lowered(alloc, style, block, present)?;
    let errors = core_errors(alloc, size, &core.terms)?;
    if !errors.is_empty() {
        return Ok(Outcome::Faulty(errors));
    }
    written(alloc, style, lines, core, names)
}

// What a block comes to, and the notes on it.
#[derive(Drop)]
struct Noted {
    outcome: Outcome,
    notes: Messages,
}

// A block that was checked: its table, or what is wrong with it, or else what of it cannot be lowered. With it stand the notes on
// the literals of its source, which are found before, and on its names.
fn compile_noted(
    alloc: Global,
    style: Style,
    lines: &SourceLines<'_>,
    literals: Messages,
    checked: CheckedBlock,
) -> Result<Noted, AllocError>
    ghost told: { List Message × (AbsolutePath → Bool) }
    requires room { FitsHeader (fields_of checked.block) }
    requires formed { AreFormed (Unit {0}) AreNamed (Unit {0}) (Unit {0}) (trees_of checked.block.terms.items) }
    requires names { IsNamed checked.names told.0 told.1 (trees_of checked.block.terms.items) }
    requires present { IsPresenceOf (plans_of checked.block.terms.items) checked.present }
    requires near { checked.errors ≡ [] → AreNear (trees_of checked.block.terms.items) }
    requires shaped { checked.errors ≡ [] → AreShaped (named_all (without_switches (formed_all (trees_of checked.block.terms.items)))) }
    ensures notes { IfOk result (λ it. it.notes ≡ literals ++ checked.notes) }
    ensures outcome { IfOk result (λ it. it.outcome ≡
        of_terms style lines.now checked.block.place (core_places (plans_of checked.block.terms.items)) checked.block.file
        (fields_of checked.block) told.0 checked.errors
        (not_lowered style (fields_of checked.block) checked.block.place (trees_of checked.block.terms.items)
        (plans_of checked.block.terms.items)) told.1 (trees_of checked.block.terms.items)) }
{
    let CheckedBlock {
        block,
        names,
        errors,
        notes,
        present,
    } = checked;
    let terms = block.terms.as_slice();
    let notes = both(literals, notes)?;
    match find(alloc, terms, present, names, errors)? {
        Findings::Right(names) => {
            let outcome = table_of(alloc, style, lines, block, present, names)?;
            Ok(Noted { outcome, notes })
        }
        Findings::Wrong(errors) => Ok(Noted {
            outcome: Outcome::Faulty(errors),
            notes,
        }),
    }
}

// A block, and the notes on the literals of its source.
#[derive(Drop)]
struct ReadBlock {
    block: Block,
    literals: Messages,
}

// A block, read alone, with the notes on its literals.
fn compile_item(
    alloc: Global,
    style: Style,
    lines: &SourceLines<'_>,
    read: ReadBlock,
) -> Result<Noted, AllocError>
    requires { IsRightRead read }
    ensures outcome { (item : Raw) → IsKeptSource (writtens (alone item)) → errors_at (alone item) ≡ [] → IsReadOf item read →
        IfOk result (λ it. it.outcome ≡ outcome_in style lines.now (alone item)) }
    ensures notes { (item : Raw) → IsKeptSource (writtens (alone item)) → errors_at (alone item) ≡ [] → IsReadOf item read →
        IfOk result (λ it. it.notes ≡ noted_in (alone item)) }
{
    let ReadBlock { block, literals } = read;
    let checked = check(alloc, block)?;
    compile_noted(alloc, style, lines, literals, checked)
}

// The blocks of items, each read alone.
fn compile_items(
    alloc: Global,
    style: Style,
    lines: &SourceLines<'_>,
    reads: Vec<ReadBlock>,
) -> Result<Compiled, AllocError>
    requires { AreRightReads reads.items }
    ensures { (items : List Raw) → AreKeptAlone items → AreRight items → AreReadOf items reads.items →
        IfOk result (λ it. it ≡ joined (all_noted items) (outcomes_in style lines.now items)) }
{
    let mut left = reads;
    left.reverse();
    let mut sorted = none_sorted(alloc);
    let mut notes = Messages::new(alloc);
    while let Some(read) = left.pop() {
        let it = compile_item(alloc, style, lines, read)?;
        sorted = with_outcome(alloc, sorted, it.outcome)?;
        notes = both(notes, it.notes)?;
    }
    join(sorted, notes)
}

// The notes on the literals of an item, with its block.
fn read_block(alloc: Global, raw: &SyntaxNode<'_>, block: Block) -> Result<ReadBlock, AllocError>
    requires { IsBlockOf (alone raw.now) block }
    ensures { IfOk result (IsReadOf raw.now) }
{
    let literals = cut_literals(alloc, Width::of_revision(block.revision), raw)?;
    Ok(ReadBlock { block, literals })
}

// The last of some blocks, which is taken off.
fn take_last(blocks: &mut Vec<Block>) -> Block
    requires { 0 < length blocks.old.items }
    ensures { blocks.old.items ≡ blocks.new.items ++ result ∷ [] }
{
    match blocks.pop() {
        Some(block) => block,
        None => unreachable!(),
    }
}

// The blocks that these items are, each with the notes on its literals.
fn read_blocks(
    alloc: Global,
    raws: &[SyntaxNode<'_>],
    blocks: Blocks,
) -> Result<Vec<ReadBlock>, AllocError>
    requires { AreBlocksOf raws.now blocks }
    ensures { IfOk result (λ reads. AreReadOf raws.now reads.items) }
{
    let mut left = blocks.into_vec();
    left.reverse();
    let mut reads = Vec::new(alloc);
    for raw in raws {
        let block = take_last(&mut left);
        let read = read_block(alloc, raw, block)?;
        reads.push(read)?;
    }
    Ok(reads)
}

// The blocks of a source's tree, or what is wrong with its form.
fn read_unit(alloc: Global, unit: &RawUnit<'_>) -> Result<Vec<ReadBlock>, Stage>
    ensures errors { IfOk result (λ reads. source_errors unit.now.items ≡ []) }
    ensures reads { IfOk result (λ reads. AreReadOf unit.now.items reads.items) }
    ensures refused { IfErr result (λ stage. Refuses stage (source_errors unit.now.items)) }
{
    let program = shape(alloc, unit)?;
    match read_blocks(alloc, unit.items.as_slice(), program.blocks) {
        Ok(reads) => Ok(reads),
        Err(_) => Err(Stage::Memory),
    }
}

// The refusal with this message at the token of that number.
fn refuse_at(alloc: Global, tokens: &Tokens, number: u16, token: u32) -> Stage
    ensures { Refuses result (at_token number tokens.now token ∷ []) }
{
    let place = place_at(tokens.as_slice(), token);
    let name = Text::new(alloc);
    match one_message(
        alloc,
        Message {
            number,
            place,
            name,
        },
    ) {
        Ok(messages) => Stage::Refused(messages),
        Err(_) => Stage::Memory,
    }
}

// The blocks of tokens, or why they are refused. The tree of their syntax lies in an arena, which is let go with it.
fn read_tokens(alloc: Global, tokens: Tokens) -> Result<Vec<ReadBlock>, Stage>
    requires few { length tokens < 2 ^ 32 }
    requires short { HaveShortTexts tokens }
    ensures source { IfOk result (λ reads. IsSourceOf tokens (items_in (outcome tokens)) reads.items) }
    ensures refused { IfErr result (IsRefusalOf tokens) }
    ensures within { (files : ℕ) → 0 < files → All (λ token. token.place.file < files) tokens → (style : Style) (texts : List Line) →
        UnlessMemory result (TellsWithin files (of_outcome style texts tokens (outcome tokens))) }
{
    let arena = Bump::new(alloc);
    match parse(alloc, &arena, &tokens) {
        Ok(unit) => {
            drop(tokens);
            read_unit(alloc, &unit)
        }
        Err(Syntax::Stop { token }) => Err(refuse_at(alloc, &tokens, SYNTAX, token)),
        Err(Syntax::TooDeep { token }) => Err(refuse_at(alloc, &tokens, NESTING_TOO_DEEP, token)),
        Err(Syntax::Memory) => Err(Stage::Memory),
    }
}

fn compile_tokens(
    alloc: Global,
    style: Style,
    lines: &SourceLines<'_>,
    tokens: Tokens,
) -> Result<Compiled, AllocError>
    requires few { length tokens < 2 ^ 32 }
    requires short { HaveShortTexts tokens }
    ensures value { IfOk result (λ compiled. compiled ≡ of_outcome style lines.now tokens (outcome tokens)) }
    ensures own { IfOk result HasAsciiNames }
    ensures within { (files : ℕ) → 0 < files → All (λ token. token.place.file < files) tokens → IfOk result (TellsWithin files) }
{
    match read_tokens(alloc, tokens) {
        Ok(reads) => compile_items(alloc, style, lines, reads),
        Err(stage) => Ok(Compiled::Refused(refusal(stage)?)),
    }
}

// The tokens of lines, which are looked through once for all tables.
fn compile_lines(
    alloc: Global,
    style: Style,
    lines: &[Line],
    tokens: Tokens,
) -> Result<Compiled, AllocError>
    requires few { length tokens < 2 ^ 32 }
    requires short { HaveShortTexts tokens }
    ensures value { IfOk result (λ compiled. compiled ≡ of_outcome style lines.now tokens (outcome tokens)) }
    ensures own { IfOk result HasAsciiNames }
    ensures within { (files : ℕ) → 0 < files → All (λ token. token.place.file < files) tokens → IfOk result (TellsWithin files) }
{
    let lines = SourceLines::new(alloc, lines)?;
    compile_tokens(alloc, style, &lines, tokens)
}

// Whether so many tokens have numbers of 32 bits.
fn are_numbered(count: usize) -> bool
    ensures { IsTrue result ↔ count < 2 ^ 32 }
{
    count <= MOST_TOKENS
}

/// What lines of ASL come to: a table in pieces for each block (ACPI Specification 6.4, 19.6 and 20.2), or errors, of which there is
/// at least one: those of one class, of all blocks. Each refusal stands in one of their files.
#[tactic(auto, using(crate::proofs::Outcomes::fault_is))]
pub fn compile(alloc: Global, style: Style, lines: &Lines) -> Result<Compiled, AllocError>
    requires short { All (λ line. length line.text < 2 ^ 32) lines.now.list }
    requires main { 0 < length lines.now.files }
    requires files { All (λ line. line.file < length lines.now.files) lines.now.list }
    ensures value { IfOk result (λ it. it ≡ of_lines style lines.now.list) }
    ensures own { IfOk result HasAsciiNames }
    ensures within { IfOk result (TellsWithin (length lines.now.files)) }
{
    match tokens(alloc, lines) {
        // (no more tokens have room)
        Ok(tokens) if !are_numbered(tokens.len()) => Err(AllocError),
        Ok(tokens) => compile_lines(alloc, style, lines.list.as_slice(), tokens),
        Err(stage) => Ok(Compiled::Refused(refusal(stage)?)),
    }
}
