//! What names of packages stand for: their variables and their symbols.
ghost use Rattle.std.specs.Prelude.{◌≡◌, ◌++◌, IfOk, codes};
ghost use Rattle.br_path.specs.Text.{is_text};
ghost use Rattle.recipe_set.specs.Names.{upper_form};
ghost use Rattle.selection.specs.Names.{is_asked};

use br_path::{Bytes, Memory};
use kc_values::Values;
use recipe_set::upper_form;
use std::alloc::Global;

/// The variable of a package that ends so.
pub(crate) fn variable(alloc: Global, name: &[u8], ending: &[u8]) -> Result<Bytes, Memory>
    ensures { IfOk result (λ text. text ≡ upper_form name.now ++ ending.now) }
{
    let mut text = upper_form(alloc, name)?;
    text.items.extend_from_slice(ending)?;
    Ok(text)
}

/// Whether the symbol of a package is a bool that is y.
pub(crate) fn is_asked(alloc: Global, values: &Values, name: &[u8]) -> Result<bool, Memory>
    ensures { IfOk result (λ asked. asked ≡ is_asked values.now name.now) }
{
    let symbol = symbol(alloc, name)?;
    Ok(values.is_yes(symbol.as_slice()))
}

/// The symbol of a package.
fn symbol(alloc: Global, name: &[u8]) -> Result<Bytes, Memory>
    ensures { IfOk result (λ text. text ≡ codes "BR2_PACKAGE_" ++ upper_form name.now) }
{
    let form = upper_form(alloc, name)?;
    let mut text = Bytes::from_slice(alloc, b"BR2_PACKAGE_")?;
    text.items.extend_from_slice(form.as_slice())?;
    Ok(text)
}

/// Whether two texts are the same.
pub(crate) fn is_same(text: &[u8], other: &[u8]) -> bool
    ensures { result ≡ is_text text.now other.now }
{
    text == other
}
