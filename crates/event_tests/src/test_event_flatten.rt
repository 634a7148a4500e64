//! Tests of event_flatten: leaves worked by hand.
use event_flatten::{Fields, Leaf, Path, Paths};
use json_text::{Bytes, Json, Text, read, write};
use std::alloc::Global;
use std::test::Fail;
use test_rows::{all_met, four, three, two};

/// The path of a list of keys.
fn path_of(alloc: Global, keys: &Json) -> Result<Path, Fail> {
    let mut path = Vec::new(alloc);
    if let Json::List(keys) = keys {
        for key in keys {
            path.push(Text::from_str(alloc, key.as_text().ok_or("no key")?)?)?;
        }
    }
    Ok(Path::of(path))
}

/// The paths of a list of lists of keys.
fn paths_of(alloc: Global, text: &str) -> Result<Paths, Fail> {
    let mut paths = Vec::new(alloc);
    if let Json::List(lists) = read(alloc, text.as_bytes(), 100)? {
        for keys in &lists {
            paths.push(path_of(alloc, keys)?)?;
        }
    }
    Ok(Paths::of(paths))
}

/// Leaves as the numbers of their paths and their values.
fn shown(alloc: Global, leaves: &[Leaf<'_>]) -> Result<Bytes, Fail> {
    let mut text = Bytes::new(alloc);
    for leaf in leaves {
        if text.len() > 0 {
            text.extend(b" ")?;
        }
        let number = leaf.number;
        text.extend(format!(in alloc; "{number}:")?.as_bytes())?;
        write(leaf.value, &mut text)?;
    }
    Ok(text)
}

/// Paths, an event, and all its leaves at them.
fn are_leaves(alloc: Global, row: &str) -> Result<bool, Fail> {
    let (paths, event, want) = three(row);
    let paths = paths_of(alloc, paths)?;
    let event = read(alloc, event.as_bytes(), 100)?;
    let fields = Fields::of(alloc, &paths, &event)?;
    Ok(shown(alloc, fields.leaves())?.as_slice() == want.as_bytes())
}

/// The same of one path, which the third field numbers.
fn are_leaves_at(alloc: Global, row: &str) -> Result<bool, Fail> {
    let (paths, event, number, want) = four(row);
    let paths = paths_of(alloc, paths)?;
    let event = read(alloc, event.as_bytes(), 100)?;
    let fields = Fields::of(alloc, &paths, &event)?;
    let number: usize = number.parse()?;
    Ok(shown(alloc, fields.at(number))?.as_slice() == want.as_bytes())
}

/// Paths, and each of them once in order.
fn are_sorted(alloc: Global, row: &str) -> Result<bool, Fail> {
    let (given, want) = two(row);
    let paths = paths_of(alloc, given)?;
    let mut text = Bytes::new(alloc);
    for number in 0..paths.len() {
        let comma: &[u8] = if number == 0 { b"[" } else { b"],[" };
        text.extend(comma)?;
        let mut first = true;
        for key in paths.path(number) {
            if !first {
                text.extend(b",")?;
            }
            first = false;
            write(&Json::Str(key.copy(alloc)?), &mut text)?;
        }
    }
    if paths.len() > 0 {
        text.extend(b"]")?;
    }
    let text = str::from_utf8(text.as_slice())?;
    Ok(format!(in alloc; "[{text}]")?.as_str() == want)
}

/// Paths, an event, and the leaves, each as the number of its path and its value.
const LEAVES: &str = r#"[["a","b"]]|{"a":[{"b":1},{"b":[2,3]}]}|0:1 0:2 0:3
[["a","b"],["a","c"]]|{"a":[{"b":1},{"c":2}]}|0:1 1:2
[["a","b"],["a","c"]]|{"a":[[{"b":1,"c":2}]]}|0:1 1:2
[["a","b"],["a","c"]]|{"a":[{"c":1,"b":2},{"b":3}]}|0:2 0:3 1:1
[["a","b"]]|{"a":{"b":[]}}|
[["a","b"]]|{"a":{"b":{"x":1}}}|
[["a","b"]]|{}|
[["a","b"]]|{"a":[{"c":1},{"b":1}]}|0:1
[["a","b"],["a","c"],["d"]]|{"a":[{"b":1},{"c":2}],"d":3}|0:1 1:2 2:3
[["a","b"],["a.b"]]|{"a.b":1}|1:1
[["a","b"],["a.b"]]|{"a":{"b":1}}|0:1
[["a"]]|{"a":[[],[[1]],{"b":2}]}|0:1
[["a"],["a","b"]]|{"a":[[],[[1]],{"b":2}]}|0:1 1:2
[["a","b"],["a"]]|{"a":[{"b":2},1]}|0:1 1:2
[[]]|7|0:7
[[]]|[1,[2]]|0:1 0:2
[[]]|{"a":1}|
[[""]]|{"":1,"a":2}|0:1
[["","a"]]|{"":{"a":1},"a":2}|0:1
[["a\u0000b"],["a"]]|{"a\u0000b":1,"a":2}|0:2 1:1
[["a"],["a"],["b"]]|{"b":2,"a":1}|0:1 1:2
[]|{"a":1}|
[["a"]]|{"a":null,"b":1}|0:null
[["a"]]|{"a":[true,1.50,"x"]}|0:true 0:1.50 0:"x"
[["a","a"]]|{"a":{"a":1,"b":2},"b":{"a":3}}|0:1
[["b"],["a"]]|{"b":1,"a":2}|0:2 1:1
[["é"],["e"]]|{"é":1,"e":2}|0:2 1:1
[["a","b"]]|{"a":1,"a":{"b":2}}|0:2
[["l","a"],["l","b"]]|{"l":[{"b":1,"a":2},{"b":3,"a":4},{"b":5,"a":6},{"b":7,"a":8},{"b":9,"a":10},{"b":11,"a":12},{"b":13,"a":14},{"b":15,"a":16},{"b":17,"a":18},{"b":19,"a":20},{"b":21,"a":22}]}|0:2 0:4 0:6 0:8 0:10 0:12 0:14 0:16 0:18 0:20 0:22 1:1 1:3 1:5 1:7 1:9 1:11 1:13 1:15 1:17 1:19 1:21
"#;

#[test]
fn leaves_are_found(rt: HostRuntime) -> Result<(), Fail> {
    all_met(rt.alloc(), LEAVES, 29, are_leaves)
}

const AT_ONE_PATH: &str = r#"[["a"],["b"]]|{"b":[1,2],"a":3}|0|0:3
[["a"],["b"]]|{"b":[1,2],"a":3}|1|1:1 1:2
[["a"],["b"]]|{"b":[1,2]}|0|
[["a"],["b"]]|{"b":[1,2]}|2|
"#;

#[test]
fn leaves_of_one_path_are_found(rt: HostRuntime) -> Result<(), Fail> {
    all_met(rt.alloc(), AT_ONE_PATH, 4, are_leaves_at)
}

/// Paths, and what is kept of them.
const PATHS: &str = r#"[["b"],["a"],["a","b"],["a"]]|[["a"],["a","b"],["b"]]
[["a.b"],["a","b"],[]]|[[],["a","b"],["a.b"]]
[["",""],[""]]|[[""],["",""]]
[["z"],["é"],["a"],["B"]]|[["B"],["a"],["z"],["é"]]
[["a","c"],["a","b"],["a","c"]]|[["a","b"],["a","c"]]
[]|[]
"#;

#[test]
fn paths_are_sorted(rt: HostRuntime) -> Result<(), Fail> {
    all_met(rt.alloc(), PATHS, 6, are_sorted)
}
