// The name under which tables are counted and chosen: a signature in lower case, `RSD PTR` as `rsdp`.
ghost use Rattle.std.specs.Prelude.{◌≡◌, codes};
ghost use Rattle.std.specs.Str.{bytes_eq};
ghost use Rattle.acpi_extract.specs.Dump.{lower, stem_of};

pub(crate) fn has_letters(text: &[u8], letters: &[u8]) -> bool
    ensures { result ≡ bytes_eq (lower text.now) (lower letters.now) }
{
    text.eq_ignore_ascii_case(letters)
}

// The stem of a signature, in letters of either case.
pub(crate) fn stem_text(signature: &[u8]) -> &[u8]
    ensures { lower result.now ≡ stem_of signature.now }
{
    if has_letters(signature, b"RSD PTR") {
        b"RSDP"
    } else {
        signature
    }
}

// Whether two signatures count as one.
pub(crate) fn have_same_stem(first: &[u8], second: &[u8]) -> bool
    ensures { result ≡ bytes_eq (stem_of first.now) (stem_of second.now) }
{
    has_letters(stem_text(first), stem_text(second))
}

pub(crate) fn is_pointer(signature: &[u8]) -> bool
    ensures { result ≡ bytes_eq (stem_of signature.now) (codes "rsdp") }
{
    has_letters(stem_text(signature), b"RSDP")
}
