//! Address prefixes, as `10.0.0.0/8` and `2001:db8::/32`.
ghost use Rattle.std.specs.Prelude.{◌≡◌, ◌↔◌, ◌^◌, ◌<◌, ◌≤◌, ℕ, Some, IsTrue, decimal, MatchOption};
ghost use Rattle.leaf_match.specs.Cidr.{Prefix, width_of, IsPrefixText, Holds, BeginsPlainly};

use crate::address::{Address, Family};
use std::marker::Model;

/// The addresses of one family that begin with the same bits. Two prefixes are equal if family, length and first bits
/// are equal, however their texts spell the address and its further bits.
#[derive(Clone, Copy, Debug, PartialEq, Eq)]
pub struct Cidr {
    family: Family,
    first_bits: u128,
    length: u32,
}

impl Model for Cidr {
    ghost use Rattle.std.specs.Prelude.{◌^◌, ◌<◌, ◌≤◌};
    ghost use Rattle.leaf_match.specs.Cidr.{Prefix, width_of};

    ghost Value = { Prefix };

    ghost view = { λ cidr. record {
      family = cidr.family;
      first_bits = cidr.first_bits;
      length = cidr.length;
    } };

    ghost invariant = { λ cidr.
        (cidr.length ≤ width_of cidr.family) × (cidr.first_bits < 2 ^ cidr.length) };

    ghost inverse = { λ prefix. record {
      family = prefix.family;
      first_bits = prefix.first_bits;
      length = prefix.length;
    } };
}

impl Cidr {
    /// The prefix that the text writes: an address, `/` and a length of 0 to the family's width, in
    /// decimal without leading zeros. The address's bits after the first ones are ignored.
    pub fn read(text: &str) -> Option<Cidr>
        ensures { (prefix : Prefix) → (result ≡ Some prefix) ↔ IsPrefixText text.now prefix }
    {
        let (address, digits) = text.rsplit_once('/')?;
        let address = Address::read(address)?;
        let length = read_length(digits, address.family.width())?;
        Some(Cidr {
            family: address.family,
            first_bits: address.leading_bits(length),
            length,
        })
    }

    /// Whether the text is an address of the prefix's family that begins with the prefix's bits.
    pub fn holds(&self, text: &str) -> bool
        ensures { IsTrue result ↔ Holds self.now text.now }
    {
        match Address::read(text) {
            Some(address) => {
                address.family == self.family
                    && address.leading_bits(self.length) == self.first_bits
            }
            None => false,
        }
    }

    pub fn family(&self) -> Family
        ensures { result ≡ self.now.family }
    {
        self.family
    }

    /// The bits that the prefix's addresses share, as a number.
    pub fn first_bits(&self) -> u128
        ensures value { result ≡ self.now.first_bits }
        ensures small { result < 2 ^ self.now.length }
    {
        self.first_bits
    }

    /// How many bits the prefix's addresses share, at most the family's width.
    pub fn length(&self) -> u32
        ensures value { result ≡ self.now.length }
        ensures in_range { result ≤ width_of self.now.family }
    {
        self.length
    }
}

/// The number that the digits write, if they have no leading zero and it is at most `most`.
fn read_length(digits: &str, most: u32) -> Option<u32>
    ensures { MatchOption result
        ((length : ℕ) → length ≤ most → ¬ (digits.now ≡ decimal length))
        (λ length. (length ≤ most) × (digits.now ≡ decimal length)) }
{
    if !begins_plainly(digits.as_bytes()) {
        return None;
    }
    let length = digits.parse::<u32>().ok()?;
    (length <= most).then_some(length)
}

/// Whether a digit is first, and it is `0` only if nothing follows.
fn begins_plainly(digits: &[u8]) -> bool
    ensures { IsTrue result ↔ BeginsPlainly digits.now }
{
    matches!(digits, [b'0'] | [b'1'..=b'9', ..])
}
