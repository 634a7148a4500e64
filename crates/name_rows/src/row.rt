//! What has a name.
ghost use Rattle.std.specs.Prelude.{◌≡◌, ℕ, List};

use json_text::Text;

/// A value that has a name.
pub trait Row {
    ghost name_of: { Self → List ℕ };

    fn row_name(&self) -> &str
        ensures { result.now ≡ name_of self.now };
}

impl Row for Text {
    ghost name_of = { λ text. text };

    fn row_name(&self) -> &str {
        self.as_str()
    }
}
