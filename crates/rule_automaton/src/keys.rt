//! The keys from the root of a pattern down to one of its fields.
ghost use Rattle.std.specs.Prelude.{◌≡◌, ◌++◌, IfOk, OnOk};
ghost use Rattle.rule_automaton.specs.Keys.{keys_of};

use event_flatten::Path;
use json_text::{NoMemory, Text};
use std::alloc::Global;

/// Keys, the last first. Its cells are stack frames: a function makes a cell and passes a reference to it on.
#[derive(Drop)]
pub(crate) enum Keys<'a> {
    Root,
    Key { key: &'a str, up: &'a Keys<'a> },
}

/// The path of these keys, in memory of its own.
pub(crate) fn path_of(alloc: Global, at: &Keys<'_>) -> Result<Path, NoMemory>
    ensures { IfOk result (λ path. path ≡ keys_of at.now) }
{
    let mut keys = Vec::new(alloc);
    add_keys(alloc, at, &mut keys)?;
    Ok(Path::of(keys))
}

/// Appends the keys from the root on.
fn add_keys(alloc: Global, at: &Keys<'_>, keys: &mut Vec<Text>) -> Result<(), NoMemory>
    ensures { OnOk result (keys.new.items ≡ keys.old.items ++ keys_of at.now) }
{
    match at {
        Keys::Root => Ok(()),
        Keys::Key { key, up } => {
            add_keys(alloc, up, keys)?;
            keys.push(Text::from_str(alloc, key)?)?;
            Ok(())
        }
    }
}
