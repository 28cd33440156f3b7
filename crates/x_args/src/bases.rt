//! The name that generated texts use.

ghost use Rattle.std.specs.Prelude.{◌≡◌, ◌==◌};
ghost use Rattle.std.specs.List.{after_last};
ghost use Rattle.x_args.specs.BaseNames.{base_of, without_x};

use memchr::memrchr;

/// The part of a path behind its last `/`.
#[tactic(auto, using(crate::proofs::BaseNameLemmas::behind_last))]
fn file_name(path: &[u8]) -> &[u8]
    ensures { result.now ≡ after_last (λ b. b == 47) path.now }
{
    match memrchr(b'/', path) {
        Some(slash) => &path[slash + 1..],
        None => path,
    }
}

/// A name without a final `.x`.
fn without_x(name: &[u8]) -> &[u8]
    ensures { result.now ≡ without_x name.now }
{
    name.strip_suffix(b".x").unwrap_or(name)
}

/// The name that the texts use which are generated of a file: the file's own, behind the last `/` of its
/// path, without a final `.x`.
pub fn base_name(path: &[u8]) -> &[u8]
    ensures { result.now ≡ base_of path.now }
{
    without_x(file_name(path))
}
