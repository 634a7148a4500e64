//! Who asks to put an event on a bus.

/// One who asks to put an event on a bus. Any texts have their verdict, also an account that is none.
#[derive(Clone, Copy, Debug)]
pub struct Asker<'a> {
    pub account: &'a str,
    /// The bus's name.
    pub bus: &'a str,
    pub source: &'a str,
    pub detail_type: &'a str,
}
