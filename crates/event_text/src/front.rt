//! Known bytes at the front.
ghost use Rattle.std.specs.Prelude.{◌≡◌, ◌++◌, IfSome};

/// The bytes after those at the front.
pub(crate) fn after<'a>(bytes: &'a [u8], front: &[u8]) -> Option<&'a [u8]>
    ensures { IfSome result (λ rest. bytes.now ≡ front.now ++ rest.now) }
{
    bytes.strip_prefix(front)
}
