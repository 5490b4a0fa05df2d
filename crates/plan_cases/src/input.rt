//! The files and the values of a case.
ghost use Rattle.std.specs.Prelude.{◌≡◌, ◌⊎◌, codes};

use br_path::Bytes;
use case_text::{FileTexts, SmallFiles, Stopped, number, word};
use kc_values::{Kind, Valued, Values};
use recipe_set::upper_form;
use std::alloc::Global;

/// The line of a recipe that makes a target package.
const MAKE: &[u8] = b"$(eval $(generic-package))\n";

/// The files and the values of a case. Text is put into the last file.
#[derive(Drop)]
pub(crate) struct Input {
    alloc: Global,
    files: FileTexts,
    values: Values,
}

impl Input {
    pub(crate) fn new(alloc: Global) -> Input {
        Input {
            alloc,
            files: FileTexts::new(alloc),
            values: Values::new(alloc),
        }
    }

    pub(crate) fn values(&self) -> &Values {
        &self.values
    }

    /// The files, by their paths.
    pub(crate) fn files(&self) -> Result<SmallFiles, Stopped> {
        self.files.by_paths()
    }

    /// Begins a file.
    pub(crate) fn begin_file(&mut self, path: &[u8]) -> Result<(), Stopped> {
        self.files.begin(path)
    }

    /// Begins the recipe of a package.
    pub(crate) fn begin_recipe(&mut self, name: &[u8]) -> Result<(), Stopped> {
        let mut path = Vec::from_slice(self.alloc, b"package/")?;
        path.extend_from_slice(name)?;
        path.push(b'/')?;
        path.extend_from_slice(name)?;
        path.extend_from_slice(b".mk")?;
        self.begin_file(path.as_slice())
    }

    /// Begins the recipe of a package that is asked for.
    pub(crate) fn begin_package(&mut self, name: &[u8]) -> Result<(), Stopped> {
        let mut symbol = Vec::from_slice(self.alloc, b"BR2_PACKAGE_")?;
        symbol.extend_from_slice(upper_form(self.alloc, name)?.as_slice())?;
        self.put_bool(symbol.as_slice(), b"y")?;
        self.begin_recipe(name)
    }

    /// So many packages `p100`, `p101` .. of one line each.
    pub(crate) fn put_packages(&mut self, count: &[u8]) -> Result<(), Stopped> {
        for place in 0..number(count)? {
            let place = place % 1_000 + 100;
            let name = format!(in self.alloc; "p{place}")?;
            self.begin_package(name.as_bytes())?;
            self.put(MAKE)?;
        }
        Ok(())
    }

    /// Puts a line into the last file.
    pub(crate) fn put_line(&mut self, line: &[u8]) -> Result<(), Stopped> {
        self.files.put_line(line)
    }

    /// Puts a text into the last file.
    pub(crate) fn put(&mut self, text: &[u8]) -> Result<(), Stopped> {
        self.files.put(text)
    }

    /// Sets a symbol: its name, its type and its text.
    pub(crate) fn put_value(&mut self, rest: &[u8]) -> Result<(), Stopped> {
        let (symbol, rest) = word(rest);
        let (kind, text) = word(rest);
        if kind == b"bool".as_slice() {
            return self.put_bool(symbol, text);
        }
        if kind == b"string".as_slice() {
            return self.add(symbol, Kind::Text, text);
        }
        if kind == b"int".as_slice() {
            return self.add(symbol, Kind::Int, text);
        }
        Err(Stopped)
    }

    fn put_bool(&mut self, symbol: &[u8], text: &[u8]) -> Result<(), Stopped> {
        if text == b"y".as_slice() || text == b"n".as_slice() {
            return self.add(symbol, Kind::Bool, text);
        }
        Err(Stopped)
    }

    fn add(&mut self, symbol: &[u8], kind: Kind, text: &[u8]) -> Result<(), Stopped>
        requires { kind ≡ Kind.Bool → (text.now ≡ codes "y") ⊎ (text.now ≡ codes "n") }
    {
        if self.values.find(symbol).is_some() {
            return Err(Stopped);
        }
        let symbol = Bytes::from_slice(self.alloc, symbol)?;
        let text = Bytes::from_slice(self.alloc, text)?;
        Ok(self.values.add(symbol, Valued { kind, text })?)
    }
}
