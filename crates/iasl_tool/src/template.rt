//! What a call is to end with that asks for a template.
ghost use Rattle.std.specs.Prelude.{◌≡◌, ◌++◌, ◌∷◌, [], IfOk, codes, map, string_bytes};
ghost use Rattle.std.specs.Char.{to_ascii_lowercase};
ghost use Rattle.data_generic.specs.Templates.{signature_of, default_pieces};
ghost use Rattle.table_outputs.specs.Decision.{end_of, IsTemplate, IsMadeOf};
ghost use Rattle.iasl_tool.specs.Due.{template_name, answer_to_template};

use crate::due::console_text;
use data_generic::template::default_lines;
use data_layout::table::{Table, signature_of};
use iasl_messages::console::template_line;
use iasl_messages::message::Messages;
use iasl_options::switches::Switches;
use iasl_ports::list::{Text, Texts};
use std::alloc::{AllocError, Global};
use table_outputs::decision::{Decision, Making, OutputNames, TableList};

// The name of the file of a template.
fn template_name(table: Table) -> &'static str
    ensures { result.now ≡ template_name table }
{
    match table {
        Table::Facp => "facp.asl",
        Table::Apic => "apic.asl",
        Table::Mcfg => "mcfg.asl",
        Table::Hpet => "hpet.asl",
        Table::Srat => "srat.asl",
        Table::Slit => "slit.asl",
        Table::Waet => "waet.asl",
        Table::Bert => "bert.asl",
        Table::Bgrt => "bgrt.asl",
        Table::Spcr => "spcr.asl",
        Table::Tpm2 => "tpm2.asl",
        Table::Erst => "erst.asl",
        Table::Einj => "einj.asl",
        Table::Pcct => "pcct.asl",
        Table::Tcpa => "tcpa.asl",
        Table::Gtdt => "gtdt.asl",
        Table::Hest => "hest.asl",
        Table::Viot => "viot.asl",
        Table::Nfit => "nfit.asl",
    }
}

// What the console is told of a template.
fn template_text(alloc: Global, table: Table) -> Result<Text, AllocError>
    ensures { IfOk result (λ text. text ≡ (answer_to_template table).text) }
{
    let line = template_line(alloc, template_name(table).as_bytes(), signature_of(table))?;
    console_text(
        alloc,
        Switches::new(),
        &Texts::new(alloc),
        &Texts::new(alloc),
        Messages::new(alloc),
        &line,
    )
}

/// What is due of the template of a table.
#[tactic(auto, using(crate::proofs::TemplateLaws::is_known, crate::proofs::TemplateLaws::due_is))]
pub(crate) fn answer_to_template(alloc: Global, table: Table) -> Result<Decision, AllocError>
    ensures due { IfOk result (λ decision. end_of decision ≡ answer_to_template table) }
    ensures decided { IfOk result IsTemplate }
    ensures made { IfOk result (IsMadeOf (default_pieces table)) }
{
    let name = String::from_str(alloc, template_name(table))?;
    let pieces = default_lines(alloc, signature_of(table))?;
    Ok(Decision::Makes(Making {
        text: template_text(alloc, table)?,
        earlier: TableList::new(alloc),
        names: OutputNames::OfTemplate(name),
        pieces,
    }))
}
