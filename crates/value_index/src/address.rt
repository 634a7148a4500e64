//! Addresses of texts. leaf_match reads them so too, for each test alone.
ghost use Rattle.std.specs.Prelude.{◌≡◌, ◌^◌, ◌<◌, ℕ, MatchOption};
ghost use Rattle.leaf_match.specs.declared.address.Family.{Family};
ghost use Rattle.leaf_match.specs.Cidr.{IsAddressText, leading_bits};

use leaf_match::Family;
use std::net::{Ipv4Addr, Ipv6Addr};

/// An address as a number of its family's width, whose first bit is the highest.
#[derive(Clone, Copy)]
pub(crate) struct Address {
    pub(crate) family: Family,
    pub(crate) bits: u128,
}

impl Address {
    pub(crate) fn read(text: &str) -> Option<Address>
        ensures { MatchOption result
            ((family : Family) → (bits : ℕ) → ¬ (IsAddressText family text.now bits))
            (λ address. IsAddressText address.family text.now address.bits) }
    {
        if let Ok(address) = text.parse::<Ipv4Addr>() {
            return Some(Address {
                family: Family::V4,
                bits: u128::from(address.to_bits()),
            });
        }
        // std reads an IPv6 text that ends in dotted decimals; here it is no address.
        if text.as_bytes().contains(&b'.') {
            return None;
        }
        match text.parse::<Ipv6Addr>() {
            Ok(address) => Some(Address {
                family: Family::V6,
                bits: address.to_bits(),
            }),
            Err(_) => None,
        }
    }

    /// The first bits; all of them, if the length is the family's width or more.
    pub(crate) fn leading_bits(self, length: usize) -> u128
        ensures { result ≡ leading_bits self.family length self.bits }
    {
        // All 128 bits of an IPv6 address are shifted out at length 0.
        let width = self.family.width() as usize;
        let unused = width.saturating_sub(length) as u32;
        self.bits.checked_shr(unused).unwrap_or(0)
    }
}
