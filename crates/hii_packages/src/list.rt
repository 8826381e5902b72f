//! A list of packages, read from its bytes.

ghost use Rattle.std.specs.Prelude.{◌≡◌, ◌+◌, ◌^◌, ◌<◌, [], true, false, length, IfOk, IfErr, IsOk, Some, None, MatchOption};
ghost use Rattle.browser_rules.specs.Faults.{fault_at, faults_of_packages, list_faults, number_faults};
ghost use Rattle.browser_rules.specs.Packages.{device_path, forms_package, is_bad, package_length};
ghost use Rattle.hii_bytes.specs.Causes.{cause_for};
ghost use Rattle.hii_bytes.specs.Faults.{IsLeastAmong};
ghost use Rattle.hii_packages.specs.Packages.{packages_of};
ghost use Rattle.hii_packages.specs.code.Package.{package_of};

use crate::package::{DEVICE_PATH, END, FORMS, Package};
use crate::packages::Packages;
use hii_bytes::{Cause, Fault, u24_at, u32_at};
use std::marker::Model;

/// The packages of a list, seen as the bytes of the list.
#[derive(Drop)]
pub struct PackageList<'a> {
    list: &'a [u8],
    // the length that the list tells
    size: usize,
}

impl<'a> Model for PackageList<'a> {
    ghost use Rattle.std.specs.Prelude.{ℕ, List};
    ghost use Rattle.hii_packages.specs.code.Sound.{IsSound};

    ghost Value = { List ℕ };

    ghost view = { λ s. s.list.now };

    ghost invariant = { λ s. IsSound s.list.now s.size };
}

impl<'a> PackageList<'a> {
    /// The packages of a list (UEFI 2.8, 33.3.1), or the least fault, at its place in bytes from the first one: ListShort
    /// at 0 where there are fewer than 20, ListLength at 16 where the list's own length is below 20 or above their
    /// number, PackageLength at a package whose header is cut or whose length is below 4, passes the list's or is not 4
    /// at the end package, NoEnd at the list's end where no end package came, AfterEnd behind an end package that comes
    /// before it. Bytes behind the list's own length are not looked at (own rule).
    pub fn read(list: &'a [u8]) -> Result<PackageList<'a>, Fault>
        ensures read { IfOk result (λ packages. packages ≡ list.now) }
        ensures sound { IfOk result (λ _. list_faults list.now ≡ []) }
        ensures refused { IfErr result (IsLeastAmong (list_faults list.now)) }
        // A list without a fault is read.
        ensures accepted { list_faults list.now ≡ [] → IsOk result }
    {
        if list.len() < 20 {
            return Err(Fault::at(Cause::ListShort, 0));
        }
        let size = u32_at(list, 16).unwrap() as usize;
        if size < 20 || list.len() < size {
            return Err(Fault::at(Cause::ListLength, 16));
        }
        check_packages(&list[20..size], 20)?;
        Ok(PackageList { list, size })
    }

    /// The packages in order, without the end package. Their places are in bytes from the list's first byte.
    pub fn packages(&self) -> Packages<'a>
        ensures all { result ≡ packages_of self.now }
        ensures few { length result < 2 ^ 62 }
    {
        Packages::from(&self.list[20..self.size], 20)
    }

    /// The forms package of a number (UEFI 2.8, 33.3.8 Forms Package), counted from 1 in the order of the list, or
    /// NoForms at the place 0 where none has it, as none has the number 0.
    pub fn forms(&self, n: usize) -> Result<Package<'a>, Fault>
        ensures found { IfOk result (λ found. forms_package self.now n ≡ Some (package_of found)) }
        ensures missing { IfErr result (λ fault. (forms_package self.now n ≡ None)
            × (fault ≡ record { cause = Cause.NoForms; place = 0 })) }
        ensures refused { IfErr result (IsLeastAmong (number_faults self.now n)) }
    {
        let missing = Fault::at(Cause::NoForms, 0);
        if n == 0 {
            return Err(missing);
        }
        let mut before = n - 1;
        for found in self.packages() {
            if found.kind == FORMS {
                if before == 0 {
                    return Ok(found);
                }
                before -= 1;
            }
        }
        Err(missing)
    }

    /// The body of the first package that tells a device path (UEFI 2.8, 33.3.4 Device Path Package), or no bytes.
    pub fn device_path(&self) -> &'a [u8]
        ensures { result.now ≡ device_path self.now }
    {
        for found in self.packages() {
            if found.kind == DEVICE_PATH {
                return &found.bytes[4..];
            }
        }
        &[]
    }
}

// The length of the package at the front of bytes, if a whole one stands there.
fn whole_length(bytes: &[u8]) -> Option<usize>
    ensures { MatchOption result (is_bad bytes.now ≡ true)
        (λ size. (is_bad bytes.now ≡ false) × (size ≡ package_length bytes.now)) }
{
    if bytes.len() < 4 {
        return None;
    }
    let length = u24_at(bytes, 0).unwrap() as usize;
    if length < 4 || bytes.len() < length || (bytes[3] == END && length != 4) {
        return None;
    }
    Some(length)
}

// The fault of bytes that are to be packages and the end package, of which the first stands at this place.
fn check_packages(packages: &[u8], place: u64) -> Result<(), Fault>
    requires { place + length packages.now < 2 ^ 64 }
    ensures sound { IfOk result (λ _. faults_of_packages (length packages.now) place packages.now ≡ []) }
    ensures fault { IfErr result (λ fault. faults_of_packages (length packages.now) place packages.now
        ≡ fault_at (cause_for fault.cause) fault.place) }
{
    let mut rest = packages;
    let mut at = place;
    while !rest.is_empty() {
        let Some(size) = whole_length(rest) else {
            return Err(Fault::at(Cause::PackageLength, at));
        };
        if rest[3] == END {
            if rest.len() > 4 {
                return Err(Fault::at(Cause::AfterEnd, at + 4));
            }
            return Ok(());
        }
        rest = &rest[size..];
        at += size as u64;
    }
    Err(Fault::at(Cause::NoEnd, at))
}
