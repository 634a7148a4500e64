//! The lengths of the operands of an index.
ghost use Rattle.std.specs.Prelude.{◌≡◌, ℕ, false, OnOk};
ghost use Rattle.value_index.specs.Lengths.{Grown, Has, HasNone, IsListed, has, lengths_from, lengths_for};

use crate::signature::Side;
use json_text::NoMemory;
use leaf_match::Family;
use std::alloc::Global;

/// At which length a test is found.
#[derive(Clone, Copy)]
pub(crate) enum Length {
    /// At none: it is always looked up, or never.
    Any,
    /// That of a whole text.
    Whole(usize),
    /// That of the first or the last bytes of a text.
    End(Side, usize),
    /// The number of an address's first bits.
    Network(Family, usize),
}

/// Which lengths there are, of each kind: the place of a length holds `true`.
#[derive(Drop)]
pub(crate) struct Lengths {
    pub(crate) wholes: Vec<bool>,
    pub(crate) fronts: Vec<bool>,
    pub(crate) backs: Vec<bool>,
    pub(crate) v4: Vec<bool>,
    pub(crate) v6: Vec<bool>,
}

impl Lengths {
    pub(crate) fn none(alloc: Global) -> Lengths {
        Lengths {
            wholes: Vec::new(alloc),
            fronts: Vec::new(alloc),
            backs: Vec::new(alloc),
            v4: Vec::new(alloc),
            v6: Vec::new(alloc),
        }
    }

    /// Lists one more length.
    pub(crate) fn add(&mut self, length: Length) -> Result<(), NoMemory>
        ensures listed { OnOk result (IsListed self.new length) }
        ensures grown { OnOk result (Grown self.old self.new) }
    {
        match length {
            Length::Any => Ok(()),
            Length::Whole(number) => add(&mut self.wholes, number),
            Length::End(Side::Front, number) => add(&mut self.fronts, number),
            Length::End(Side::Back, number) => add(&mut self.backs, number),
            Length::Network(Family::V4, number) => add(&mut self.v4, number),
            Length::Network(Family::V6, number) => add(&mut self.v6, number),
        }
    }

    pub(crate) fn of_side(&self, side: Side) -> &[bool]
        ensures { result.now ≡ lengths_from side self.now }
    {
        match side {
            Side::Front => &self.fronts,
            Side::Back => &self.backs,
        }
    }

    pub(crate) fn has_networks(&self) -> bool
        ensures { result ≡ false → HasNone self.now }
    {
        !self.v4.is_empty() || !self.v6.is_empty()
    }

    pub(crate) fn of_family(&self, family: Family) -> &[bool]
        ensures { result.now ≡ lengths_for family self.now }
    {
        match family {
            Family::V4 => &self.v4,
            Family::V6 => &self.v6,
        }
    }
}

fn add(list: &mut Vec<bool>, number: usize) -> Result<(), NoMemory>
    ensures listed { OnOk result (Has list.new.items number) }
    ensures kept { OnOk result ((n : ℕ) → Has list.old.items n → Has list.new.items n) }
{
    if number < list.len() {
        list[number] = true;
    } else {
        list.resize(number, false)?;
        list.push(true)?;
    }
    Ok(())
}

/// Whether the length is listed.
pub(crate) fn has(list: &[bool], number: usize) -> bool
    ensures { result ≡ has list.now number }
{
    match list.get(number) {
        Some(listed) => *listed,
        None => false,
    }
}
