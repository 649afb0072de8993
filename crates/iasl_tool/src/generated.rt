//! What a call is to end with that asks for generated devices.
ghost use Rattle.std.specs.Prelude.{◌≡◌, ◌≤◌, [], ◌∷◌, IfOk};
ghost use Rattle.iasl_options.specs.Task.{generated_settings};
ghost use Rattle.generated_lines.specs.Generated.{generated_lines};
ghost use Rattle.table_outputs.specs.Decision.{end_of, IsDecidedBy, IsMadeOf};
ghost use Rattle.iasl_tool.specs.Due.{answer_to_generated, pieces_of_lines};

use crate::due::make_compiled;
use generated_lines::lines::device_lines;
use iasl_messages::console::devices_line;
use iasl_messages::message::Messages;
use iasl_messages::place::{LineList, Lines};
use iasl_options::task::generated_options;
use iasl_ports::list::{Text, Texts};
use std::alloc::{AllocError, Global};
use table_outputs::decision::Decision;

// Lines as those of one file, which has no name.
fn of_one_file(alloc: Global, list: LineList) -> Result<Lines, AllocError>
    ensures list { IfOk result (λ lines. lines.list ≡ list) }
    ensures files { IfOk result (λ lines. lines.files ≡ [] ∷ []) }
{
    let mut files = Texts::new(alloc);
    files.push(Text::new(alloc))?;
    Ok(Lines { files, list })
}

// What is due of the source of so many devices.
pub(crate) fn answer_to_generated(alloc: Global, count: u32) -> Result<Decision, AllocError>
    requires { count ≤ 4096 }
    ensures due { IfOk result (λ decision. end_of decision ≡ answer_to_generated count) }
    ensures decided { IfOk result (IsDecidedBy generated_settings) }
    ensures made { IfOk result (IsMadeOf (pieces_of_lines generated_settings (generated_lines count))) }
{
    let options = generated_options(alloc)?;
    let generated = device_lines(alloc, count)?;
    let lines = of_one_file(alloc, generated.list)?;
    let more = devices_line(alloc, u64::from(count))?;
    let notes = Messages::new(alloc);
    make_compiled(alloc, &options, &lines, notes, &more)
}
