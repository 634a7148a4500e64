//! Addresses of the two families as numbers.
ghost use Rattle.std.specs.Prelude.{◌≡◌, ◌^◌, ◌<◌, ◌≤◌, ℕ, MatchOption};
ghost use Rattle.leaf_match.specs.declared.address.Family.{Family};
ghost use Rattle.leaf_match.specs.Cidr.{width_of, leading_bits, IsAddressText};

use std::net::{Ipv4Addr, Ipv6Addr};

/// A family of addresses.
#[derive(Clone, Copy, Debug, PartialEq, Eq)]
pub enum Family {
    /// IPv4, of 32 bits.
    V4,
    /// IPv6, of 128 bits.
    V6,
}

impl Family {
    /// How many bits an address has.
    pub fn width(self) -> u32
        ensures { result ≡ width_of self }
    {
        match self {
            Family::V4 => 32,
            Family::V6 => 128,
        }
    }
}

/// An address as a number of its family's width, whose first bit is the highest.
#[derive(Clone, Copy)]
pub(crate) struct Address {
    pub(crate) family: Family,
    pub(crate) bits: u128,
    ghost in_range: { bits < 2 ^ width_of family },
}

impl Address {
    pub(crate) fn read(text: &str) -> Option<Address>
        ensures { MatchOption result
            ((family : Family) → (bits : ℕ) → ¬ (IsAddressText family text.now bits))
            (λ address. IsAddressText address.family text.now address.bits) }
    {
        if let Ok(address) = text.parse::<Ipv4Addr>() {
            return Some(Address {
                family: Family::V4,
                bits: u128::from(address.to_bits()),
            });
        }
        // std reads an IPv6 text that ends in dotted decimals; here it is no address.
        if text.as_bytes().contains(&b'.') {
            return None;
        }
        match text.parse::<Ipv6Addr>() {
            Ok(address) => Some(Address {
                family: Family::V6,
                bits: address.to_bits(),
            }),
            Err(_) => None,
        }
    }

    pub(crate) fn leading_bits(self, length: u32) -> u128
        requires { length ≤ width_of self.family }
        ensures value { result ≡ leading_bits self.family length self.bits }
        ensures small { result < 2 ^ length }
    {
        // All 128 bits of an IPv6 address are shifted out at length 0.
        let unused = self.family.width() - length;
        self.bits.checked_shr(unused).unwrap_or(0)
    }
}
