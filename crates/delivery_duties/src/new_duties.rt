//! Duties that are to be added together.
ghost use Rattle.std.specs.Prelude.{◌≡◌, ◌++◌, [], ◌∷◌, ◌↔◌, true, IsTrue, OnOk, OnErr, All, length, map};

use crate::duty::NewDuty;
use crate::owed::Owed;
use json_text::NoMemory;
use key_tree::Node;
use std::alloc::Global;
use std::collections::VecDeque;
use std::marker::Model;

/// Duties with all the memory that adding, delivering and retrying them takes.
#[derive(Drop)]
pub struct NewDuties {
    rows: VecDeque<Node<Owed>>,
}

impl Model for NewDuties {
    ghost use Rattle.std.specs.Prelude.{◌≡◌, true, List, All, map};
    ghost use Rattle.delivery_duties.specs.declared.duty.NewDuty.{NewDuty};

    ghost Value = { List NewDuty };

    ghost view = { λ n. map (λ row. row.duty) n.rows.items };

    ghost invariant = { λ n. All (λ row. row.claimed ≡ true) n.rows.items };
}

impl NewDuties {
    /// An empty list. Takes no memory.
    pub fn new(alloc: Global) -> NewDuties
        ensures { result ≡ [] }
    {
        NewDuties {
            rows: VecDeque::new(alloc),
        }
    }

    /// Appends the duty. After an error the list is unchanged.
    pub fn push(&mut self, alloc: Global, duty: NewDuty) -> Result<(), NoMemory>
        ensures ok { OnOk result (self.new ≡ self.old ++ duty ∷ []) }
        ensures err { OnErr result (self.new ≡ self.old) }
    {
        let owed = Owed::new(alloc, duty)?;
        let node = Node::new(alloc, owed)?;
        self.rows.push_back(node)?;
        Ok(())
    }

    pub fn len(&self) -> usize
        ensures { result ≡ length self.now }
    {
        self.rows.len()
    }

    pub fn is_empty(&self) -> bool
        ensures { IsTrue result ↔ (self.now ≡ []) }
    {
        self.rows.is_empty()
    }

    pub(crate) fn into_rows(self) -> VecDeque<Node<Owed>>
        ensures duties { map (λ row. row.duty) result.items ≡ self }
        ensures claimed { All (λ row. row.claimed ≡ true) result.items }
    {
        let NewDuties { rows } = self;
        rows
    }
}
