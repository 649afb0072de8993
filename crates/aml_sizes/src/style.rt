//! How the integers of a table are written.
ghost use Rattle.std.specs.Prelude.{◌≡◌};
ghost use Rattle.aml_sizes.specs.Styles.{style_of as style_for};

use acpi_values::width::Width;
use asl_tree::program::Block;

/// How the integers of a table are written: by their low bits, as many as the width has, and in their short form
/// where `short` is true.
#[derive(Clone, Copy, PartialEq, Eq, Debug)]
pub struct IntegerStyle {
    pub width: Width,
    pub short: bool,
}

/// At the width that the block's revision gives.
pub fn style_of(block: &Block, short: bool) -> IntegerStyle
    ensures { result ≡ style_for block.now short }
{
    IntegerStyle {
        width: Width::of_revision(block.revision),
        short,
    }
}
