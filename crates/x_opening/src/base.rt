//! The name that generated texts use.

ghost use Rattle.std.specs.Prelude.{◌≡◌};
ghost use Rattle.x_args.specs.BaseNames.{base_of};

use x_args::base_name;

/// The name that generated texts use: that of the file, behind its last `/`, without a final `.x`.
pub fn base_of_file(file: &str) -> &[u8]
    ensures { result.now ≡ base_of file.now }
{
    base_name(file.as_bytes())
}
