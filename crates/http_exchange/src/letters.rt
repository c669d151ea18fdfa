//! Texts whose letters may be small or capital.

ghost use Rattle.std.specs.Prelude.{◌≡◌};
ghost use Rattle.http_exchange.specs.Letters.{is_alike};

/// Whether these are the same bytes, but for small and capital letters.
pub fn is_like(a: &[u8], b: &[u8]) -> bool
    ensures { result ≡ is_alike a.now b.now }
{
    a.eq_ignore_ascii_case(b)
}
