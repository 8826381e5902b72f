//! The packages of a list, one after the other.

ghost use Rattle.std.specs.Prelude.{◌≡◌, ◌<◌, ◌^◌, false, length, take, drop};
ghost use Rattle.browser_rules.specs.Packages.{is_bad, package_length, packages_from};
ghost use Rattle.hii_packages.specs.code.Sound.{AreWhole};

use crate::package::{END, Package};
use hii_bytes::u24_at;
use std::marker::Model;

/// The packages that are left of a list, seen as these in order.
#[derive(Drop)]
pub struct Packages<'a> {
    // the packages and the end package
    rest: &'a [u8],
    place: u64,
}

impl<'a> Model for Packages<'a> {
    ghost use Rattle.std.specs.Prelude.{List, length};
    ghost use Rattle.browser_rules.specs.Packages as chapter;
    ghost use Rattle.hii_packages.specs.code.Sound.{AreWhole};

    ghost Value = { List chapter.Package };

    ghost view = { λ s. chapter.packages_from (length s.rest.now) s.place s.rest.now };

    ghost invariant = { λ s. AreWhole s.place s.rest.now };
}

impl<'a> Packages<'a> {
    // The packages up to the end package with which these bytes end, of which the first has this place in the list.
    pub(crate) fn from(rest: &'a [u8], place: u64) -> Packages<'a>
        requires { AreWhole place rest.now }
        ensures { result ≡ packages_from (length rest.entry.now) place rest.entry.now }
    {
        Packages { rest, place }
    }
}

// The package at the front of bytes, and the bytes behind it.
fn split_first(bytes: &[u8]) -> (&[u8], &[u8])
    requires { is_bad bytes.now ≡ false }
    ensures first { result.0.now ≡ take (package_length bytes.now) bytes.now }
    ensures behind { result.1.now ≡ drop (package_length bytes.now) bytes.now }
    ensures small { length result.0.now < 2 ^ 24 }
{
    let size = u24_at(bytes, 0).unwrap() as usize;
    bytes.split_at(size)
}

impl<'a> Iterator for Packages<'a> {
    ghost use Rattle.std.specs.Iterator.{YieldsFirstBy, item_count};
    ghost use Rattle.hii_packages.specs.code.Package.{package_of};

    type Item = Package<'a>;

    ghost next_gives = { YieldsFirstBy package_of (λ left. left) };

    ghost remaining = { item_count (λ left. left) };

    fn next(&mut self) -> Option<Package<'a>> {
        let kind = self.rest[3];
        if kind == END {
            return None;
        }
        let (bytes, rest) = split_first(self.rest);
        let package = Package {
            place: self.place,
            kind,
            bytes,
        };
        self.place += bytes.len() as u64;
        self.rest = rest;
        Some(package)
    }
}
