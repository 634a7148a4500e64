//! Cuts and joins linked lists by moving nodes, without memory.
ghost use Rattle.std.specs.Prelude.{◌≡◌, ◌+◌, ◌^◌, ◌<◌, ◌≤◌, ◌++◌, length, take, drop};

use std::collections::LinkedList;

/// Cuts off and returns the elements from index `at` on. Takes as many steps as the shorter part has elements.
pub fn cut<T>(list: &mut LinkedList<T>, at: usize) -> LinkedList<T>
    requires { at ≤ length list.old }
    ensures front { list.new ≡ take at list.old }
    ensures back { result ≡ drop at list.old }
{
    match list.split_off(at) {
        Ok(back) => back,
        Err(_) => unreachable!(),
    }
}

/// Appends the elements of `back`.
pub fn join<T>(list: &mut LinkedList<T>, mut back: LinkedList<T>)
    requires { length list.old + length back < 2 ^ 63 }
    ensures { list.new ≡ list.old ++ back }
{
    match list.append(&mut back) {
        Ok(()) => back.destroy_empty(),
        Err(_) => unreachable!(),
    }
}
