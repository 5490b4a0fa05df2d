//! Names of packages, and what the names of their variables begin with.
ghost use Rattle.std.specs.Prelude.{◌≡◌, IfOk};
ghost use Rattle.std.specs.List.{list_all};
ghost use Rattle.recipe_set.specs.Names.{is_letter, is_first_byte, is_package_byte, begins_well, is_reserved, is_package_name, upper_byte, upper_form};

use br_path::{Bytes, Memory};
use std::alloc::Global;

/// Whether a name is one that a package may have.
pub(crate) fn is_package_name(name: &[u8]) -> bool
    ensures { result ≡ is_package_name name.now }
{
    begins_well(name) && has_package_bytes(name) && !is_reserved(name)
}

fn begins_well(name: &[u8]) -> bool
    ensures { result ≡ begins_well name.now }
{
    match name.split_first() {
        None => false,
        Some((byte, _)) => is_first_byte(*byte),
    }
}

fn has_package_bytes(name: &[u8]) -> bool
    ensures { result ≡ list_all is_package_byte name.now }
{
    name.iter().all(|byte| is_package_byte(*byte))
}

/// Whether a name stands for something else than a package.
fn is_reserved(name: &[u8]) -> bool
    ensures { result ≡ is_reserved name.now }
{
    name.starts_with(b"host-")
        || name == b"host".as_slice()
        || name == b"target".as_slice()
        || name == b"staging".as_slice()
        || name == b"build".as_slice()
}

fn is_letter(byte: u8) -> bool
    ensures { result ≡ is_letter byte }
{
    matches!(byte, b'a'..=b'z')
}

fn is_first_byte(byte: u8) -> bool
    ensures { result ≡ is_first_byte byte }
{
    is_letter(byte) || matches!(byte, b'0'..=b'9')
}

fn is_package_byte(byte: u8) -> bool
    ensures { result ≡ is_package_byte byte }
{
    is_first_byte(byte) || byte == b'-' || byte == b'_' || byte == b'.'
}

/// What the names of a package's variables begin with: its name with letters in upper case, and `_` for each `-` and `.`. So
/// `lib-foo` has `LIB_FOO`. Takes memory for the form alone.
pub fn upper_form(alloc: Global, name: &[u8]) -> Result<Bytes, Memory>
    ensures { IfOk result (λ form. form ≡ upper_form name.now) }
{
    Ok(Bytes {
        items: name.iter().map(|byte| upper_byte(*byte)).collect(alloc)?,
    })
}

fn upper_byte(byte: u8) -> u8
    ensures { result ≡ upper_byte byte }
{
    if is_letter(byte) {
        return byte - 32;
    }
    if byte == b'-' || byte == b'.' {
        return b'_';
    }
    byte
}
