//! Comparison of texts.
ghost use Rattle.std.specs.Prelude.{◌≡◌, bytes_eq, chars};

/// Whether two texts are the same.
pub fn same(a: &str, b: &str) -> bool
    ensures { result ≡ bytes_eq (chars a.now) (chars b.now) }
{
    a == b
}
