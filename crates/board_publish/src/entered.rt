//! Enabled rules, by their names.
use json_text::Text;
use name_rows::Row;

/// An enabled rule: its name, and the number by which the automaton of its bus knows it.
#[derive(Drop)]
pub(crate) struct Entered {
    pub(crate) name: Text,
    pub(crate) number: u32,
}

impl Row for Entered {
    ghost name_of = { λ entered. entered.name };

    fn row_name(&self) -> &str {
        self.name.as_str()
    }
}
