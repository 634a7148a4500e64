//! Texts, and lists of texts.
ghost use Rattle.std.specs.Prelude.{◌≡◌};
ghost use Rattle.json_text.specs.Tree.{items_of};
ghost use Rattle.json_text.specs.View.{tree_of, trees_of};
ghost use Rattle.bus_policy.specs.Grammar.{are_texts, any_text, each_item, is_principal_word};
ghost use Rattle.bus_policy.specs.Parts.{text_passes};

use crate::account::is_principal_word;
use json_text::Json;

/// Whether this is a text or a list of texts.
pub(crate) fn are_texts(json: &Json) -> bool
    ensures { result ≡ are_texts any_text (tree_of json.now) }
{
    match json {
        Json::Str(_) => true,
        Json::List(items) => each_text(items),
        _ => false,
    }
}

fn each_text(items: &[Json]) -> bool
    ensures { result ≡ each_item (text_passes any_text) (items_of (trees_of items.now)) }
{
    for item in items {
        if !is_any_text(item) {
            return false;
        }
    }
    true
}

fn is_any_text(json: &Json) -> bool
    ensures { result ≡ text_passes any_text (tree_of json.now) }
{
    match json {
        Json::Str(_) => true,
        _ => false,
    }
}

/// Whether this is a word for accounts or a list of such words.
pub(crate) fn are_principal_words(json: &Json) -> bool
    ensures { result ≡ are_texts is_principal_word (tree_of json.now) }
{
    match json {
        Json::Str(word) => is_principal_word(word.as_str()),
        Json::List(items) => each_principal_word(items),
        _ => false,
    }
}

fn each_principal_word(items: &[Json]) -> bool
    ensures { result ≡ each_item (text_passes is_principal_word) (items_of (trees_of items.now)) }
{
    for item in items {
        if !is_principal_text(item) {
            return false;
        }
    }
    true
}

fn is_principal_text(json: &Json) -> bool
    ensures { result ≡ text_passes is_principal_word (tree_of json.now) }
{
    match json {
        Json::Str(word) => is_principal_word(word.as_str()),
        _ => false,
    }
}
