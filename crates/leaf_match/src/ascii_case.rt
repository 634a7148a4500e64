//! Tests of texts without regard to the case of ASCII letters; other letters are compared exactly.
ghost use Rattle.std.specs.Prelude.{◌↔◌, IsTrue};
ghost use Rattle.leaf_match.specs.AsciiCase.{StartsCi, EndsCi, EqualCi};

/// Whether the text begins with the front.
pub fn starts_ci(text: &str, front: &str) -> bool
    ensures { IsTrue result ↔ StartsCi text.now front.now }
{
    let text = text.as_bytes();
    let front = front.as_bytes();
    front.len() <= text.len() && text[..front.len()].eq_ignore_ascii_case(front)
}

/// Whether the text ends with the end.
pub fn ends_ci(text: &str, end: &str) -> bool
    ensures { IsTrue result ↔ EndsCi text.now end.now }
{
    let text = text.as_bytes();
    let end = end.as_bytes();
    end.len() <= text.len() && text[text.len() - end.len()..].eq_ignore_ascii_case(end)
}

/// Whether the texts are the same.
pub fn equal_ci(a: &str, b: &str) -> bool
    ensures { IsTrue result ↔ EqualCi a.now b.now }
{
    a.eq_ignore_ascii_case(b)
}
