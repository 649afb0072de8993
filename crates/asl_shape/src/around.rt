//! What a part of a source stands in.
ghost use Rattle.std.specs.Prelude.{◌≡◌};
ghost use Rattle.asl_shape.specs.Around.{outside as outside_of};

use acpi_values::width::Width;

/// What a part of a source stands in.
#[derive(Clone, Copy)]
pub struct Around {
    /// Whether it is a method.
    pub method: bool,
    /// The width of the table's integers.
    pub width: Width,
}

/// What stands in no method.
pub fn outside(width: Width) -> Around
    ensures { result ≡ outside_of width }
{
    Around {
        method: false,
        width,
    }
}
