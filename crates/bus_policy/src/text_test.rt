//! Tests of one text, and values that have a text which passes.
ghost use Rattle.std.specs.Prelude.{◌≡◌, ◌↔◌, ℕ, List, IsTrue};
ghost use Rattle.json_text.specs.Tree.{items_of};
ghost use Rattle.json_text.specs.View.{tree_of, trees_of};
ghost use Rattle.bus_policy.specs.Verdict.{SomeItem, SomeText};
ghost use Rattle.json_text.specs.Access.{IsTextThat};

use json_text::Json;

/// A test of one text.
pub(crate) trait TextTest {
    ghost wanted: { Self → List ℕ → Type 0 };

    fn passes(&self, text: &str) -> bool
        ensures { IsTrue result ↔ wanted self.now text.now };
}

/// Whether this is a text that passes, or a list with one.
pub(crate) fn some_text<T: TextTest>(json: &Json, test: &T) -> bool
    ensures { IsTrue result ↔ SomeText (T.wanted test.now) (tree_of json.now) }
{
    match json {
        Json::Str(text) => test.passes(text.as_str()),
        Json::List(items) => some_item(items, test),
        _ => false,
    }
}

fn some_item<T: TextTest>(items: &[Json], test: &T) -> bool
    ensures { IsTrue result ↔ SomeItem (T.wanted test.now) (items_of (trees_of items.now)) }
{
    for item in items {
        if is_text_that(item, test) {
            return true;
        }
    }
    false
}

fn is_text_that<T: TextTest>(json: &Json, test: &T) -> bool
    ensures { IsTrue result ↔ IsTextThat (T.wanted test.now) (tree_of json.now) }
{
    match json {
        Json::Str(text) => test.passes(text.as_str()),
        _ => false,
    }
}
