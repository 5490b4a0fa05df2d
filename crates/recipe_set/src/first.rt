//! The variables before the first recipe.
ghost use Rattle.std.specs.Prelude.{◌≡◌, ◌∷◌, ◌++◌, [], IfOk, OnOk, fold};
ghost use Rattle.kc_values.specs.declared.kind.Kind.TheVariants.{Bool as BoolKind};
ghost use Rattle.recipe_set.specs.First.{symbol_text, with_symbol, with_preset, presets, first_vars};

use br_path::{Bytes, Memory};
use kc_values::{Kind, Valued, Values};
use mk_expand::Vars;
use std::alloc::Global;

/// The symbols as variables, and the presets, which win.
pub(crate) fn first_vars(alloc: Global, values: &Values) -> Result<Vars, Memory>
    ensures { IfOk result (λ vars. vars ≡ first_vars values.now) }
{
    let mut vars = Vars::new(alloc);
    match put_first(alloc, &mut vars, values) {
        Ok(()) => Ok(vars),
        Err(memory) => {
            drop(vars);
            Err(memory)
        }
    }
}

/// Sets the symbols, and then the presets.
fn put_first(alloc: Global, vars: &mut Vars, values: &Values) -> Result<(), Memory>
    ensures { OnOk result (vars.new ≡ fold with_preset (fold with_symbol vars.old values.now) presets) }
{
    put_symbols(alloc, vars, values)?;
    put_presets(alloc, vars)
}

/// Sets the presets.
fn put_presets(alloc: Global, vars: &mut Vars) -> Result<(), Memory>
    ensures { OnOk result (vars.new ≡ fold with_preset vars.old presets) }
{
    preset(alloc, vars, b"TARGET_DIR", b"/output/target")?;
    preset(alloc, vars, b"STAGING_DIR", b"/output/staging")?;
    preset(alloc, vars, b"HOST_DIR", b"/output/host")?;
    preset(alloc, vars, b"BUILD_DIR", b"/output/build")?;
    preset(alloc, vars, b"INSTALL", b"install")?;
    preset(alloc, vars, b"SED", b"sed -i -e")
}

/// Sets a simple variable.
fn preset(alloc: Global, vars: &mut Vars, name: &[u8], text: &[u8]) -> Result<(), Memory>
    ensures { OnOk result (vars.new ≡ with_preset vars.old (name.now, text.now)) }
{
    let text = Bytes::from_slice(alloc, text)?;
    vars.set(Bytes::from_slice(alloc, name)?, true, text)
}

/// Sets the symbols that are variables.
fn put_symbols(alloc: Global, vars: &mut Vars, values: &Values) -> Result<(), Memory>
    ensures { OnOk result (vars.new ≡ fold with_symbol vars.old values.now) }
{
    for place in 0..values.count() {
        let (symbol, valued) = values.at(place).unwrap();
        put_symbol(alloc, vars, symbol, valued)?;
    }
    Ok(())
}

fn put_symbol(alloc: Global, vars: &mut Vars, symbol: &[u8], valued: &Valued) -> Result<(), Memory>
    ensures { OnOk result (vars.new ≡ with_symbol vars.old (symbol.now, valued.now)) }
{
    match symbol_text(alloc, valued)? {
        None => Ok(()),
        Some(text) => vars.set(Bytes::from_slice(alloc, symbol)?, true, text),
    }
}

/// The text of a symbol as a variable, if it is set.
fn symbol_text(alloc: Global, valued: &Valued) -> Result<Option<Bytes>, Memory>
    ensures { IfOk result (λ text. text ≡ symbol_text valued.now.kind valued.now.text) }
{
    match valued.kind {
        Kind::Bool => yes_text(&valued.text),
        Kind::Text => Ok(Some(quoted(alloc, valued.text.as_slice())?)),
        Kind::Int => Ok(Some(valued.text.copy()?)),
    }
}

fn yes_text(text: &Bytes) -> Result<Option<Bytes>, Memory>
    ensures { IfOk result (λ shown. shown ≡ symbol_text BoolKind text.now) }
{
    if text.as_slice() == b"y".as_slice() {
        return Ok(Some(text.copy()?));
    }
    Ok(None)
}

fn quoted(alloc: Global, text: &[u8]) -> Result<Bytes, Memory>
    ensures { IfOk result (λ bytes. bytes ≡ 34 ∷ text.now ++ 34 ∷ []) }
{
    let mut items = Vec::new(alloc);
    items.push(b'"')?;
    items.extend_from_slice(text)?;
    items.push(b'"')?;
    Ok(Bytes { items })
}
