//! The rewrites of a problem, found by their names.
ghost use Rattle.std.specs.Prelude.{◌≡◌, map, position, bytes_eq};

use rare_text::Rewrite;

fn is_named(rewrite: &Rewrite, name: &[u8]) -> bool
    ensures { result ≡ bytes_eq name.now rewrite.now.name }
{
    name == rewrite.name.bytes()
}

/// The place of the first rewrite with this name, counted from 0.
pub(crate) fn find_rewrite(rewrites: &[Rewrite], name: &[u8]) -> Option<usize>
    ensures { result ≡ position (bytes_eq name.now) (map (λ r. r.name) rewrites.now) }
{
    for k in 0..rewrites.len() {
        if is_named(&rewrites[k], name) {
            return Some(k);
        }
    }
    None
}
