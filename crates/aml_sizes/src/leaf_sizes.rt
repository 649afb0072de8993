//! How many bytes names and lengths have, up to the most that a `usize` counts.
ghost use Rattle.std.specs.Prelude.{◌≡◌, ◌≤◌, length};
ghost use Rattle.aml_code.specs.Encoding.{package_length_bytes};
ghost use Rattle.aml_sizes.specs.Capped.{capped};
ghost use Rattle.aml_sizes.specs.Items.{written_name};

use aml_code::coded::package_length;
use aml_code::name::name_len;
use asl_tree::path::Path;

/// A name.
pub(crate) fn name_size(path: &Path) -> usize
    ensures { result ≡ capped (length (written_name path.now)) }
{
    if path.segs.len() > 255 {
        return 0;
    }
    name_len(path)
}

/// The length of a package of so many bytes after it.
pub(crate) fn length_size(content: usize) -> usize
    ensures size { result ≡ length (package_length_bytes content) }
    ensures few { result ≤ 9 }
{
    usize::from(package_length(content as u64).count)
}
