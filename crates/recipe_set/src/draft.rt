//! What is read so far, and what statements do to it.
ghost use Rattle.std.specs.Prelude.{◌≡◌, ◌≢◌, ◌++◌, [], Ok, IfOk, IfErr, OnOk, codes, is_some, true, if◌then◌else◌};
ghost use Rattle.br_path.specs.Text.{is_text};
ghost use Rattle.mk_expand.specs.Vars.{found};
ghost use Rattle.mk_expand.specs.Value.{depth_limit};
ghost use Rattle.mk_expand.specs.Answer.{IsValue, outside};
ghost use Rattle.mk_syntax.specs.declared.recipe.How.TheVariants.{Now, Append, IfUnset};
ghost use Rattle.mk_syntax.specs.declared.recipe.Test.TheVariants.{Equal};
ghost use Rattle.recipe_set.specs.declared.fault.PlanFault.TheVariants.{Expand, Memory as no_memory};
ghost use Rattle.recipe_set.specs.Effect.{Is, Sets, Appends, Asks, set, later, make, with_places, package_name, is_simple, is_defined, as_wanted};
ghost use Rattle.recipe_set.specs.First.{simple};
ghost use Rattle.recipe_set.specs.Found.{IsPlaced};
ghost use Rattle.mk_expand.specs.declared.fault.ExpandFault.TheVariants.{Memory as no_value_memory};
ghost use Rattle.recipe_set.specs.Fault.{HoldsNoMemory};
ghost use Rattle.recipe_set.specs.Steps.{IsStep, IsAnswer, HasNoValue};

use crate::fault::PlanFault;
use crate::folder::Folder;
use crate::names::upper_form;
use crate::packages::PackageSet;
use crate::texts::joined;
use br_path::{Bytes, Memory};
use mk_expand::{ExpandFault, Locals, Vars, expand};
use mk_syntax::{How, Test};
use std::alloc::Global;

/// What is read so far: the variables, and the packages that are made.
#[derive(Drop)]
pub(crate) struct Draft {
    pub(crate) vars: Vars,
    pub(crate) packages: PackageSet,
}

impl Draft {
    /// `N = V`, `N := V`, `N += V` and `N ?= V`.
    pub(crate) fn set(
        &mut self,
        alloc: Global,
        folder: &Folder,
        name: Bytes,
        how: How,
        text: Bytes,
    ) -> Result<(), PlanFault>
        ensures { IsStep (Sets folder.now.name self.old name how text) result self.new }
    {
        match how {
            How::Later => self.set_later(name, text),
            How::Now => self.set_now(alloc, folder, name, &text),
            How::Append => self.append(alloc, folder, name, text),
            How::IfUnset => self.set_if_unset(name, text),
        }
    }

    /// Sets a variable that is expanded at use.
    pub(crate) fn set_later(&mut self, name: Bytes, text: Bytes) -> Result<(), PlanFault>
        ensures { IsStep (Is (Ok (set self.old name (later text)))) result self.new }
    {
        self.vars.set(name, false, text)?;
        Ok(())
    }

    fn set_now(
        &mut self,
        alloc: Global,
        folder: &Folder,
        name: Bytes,
        text: &Bytes,
    ) -> Result<(), PlanFault>
        ensures { IsStep (Sets folder.now.name self.old name Now text.now) result self.new }
    {
        let bytes = self.value(alloc, folder, name.as_slice(), text)?;
        self.vars.set(name, true, bytes)?;
        Ok(())
    }

    fn append(
        &mut self,
        alloc: Global,
        folder: &Folder,
        name: Bytes,
        text: Bytes,
    ) -> Result<(), PlanFault>
        ensures { IsStep (Sets folder.now.name self.old name Append text) result self.new }
    {
        if self.is_simple(name.as_slice()) {
            return self.append_now(alloc, folder, name, &text);
        }
        self.vars.append(name, text)?;
        Ok(())
    }

    fn append_now(
        &mut self,
        alloc: Global,
        folder: &Folder,
        name: Bytes,
        text: &Bytes,
    ) -> Result<(), PlanFault>
        ensures { IsStep (Appends folder.now.name self.old name text.now true) result self.new }
    {
        let bytes = self.value(alloc, folder, name.as_slice(), text)?;
        self.vars.append(name, bytes)?;
        Ok(())
    }

    fn set_if_unset(&mut self, name: Bytes, text: Bytes) -> Result<(), PlanFault>
        ensures { IsStep (Is (Ok (if is_some (found self.old.vars name) then self.old else set self.old name (later text)))) result self.new }
    {
        if self.vars.is_simple(name.as_slice()).is_some() {
            return Ok(());
        }
        self.set_later(name, text)
    }

    fn is_simple(&self, name: &[u8]) -> bool
        ensures { result ≡ is_simple (found self.now.vars name.now) }
    {
        match self.vars.is_simple(name) {
            None => false,
            Some(simple) => simple,
        }
    }

    /// Makes a package: its three variables, and the package itself.
    pub(crate) fn make(
        &mut self,
        alloc: Global,
        folder: &Folder,
        host: bool,
    ) -> Result<(), PlanFault>
        requires { IsPlaced folder.now }
        ensures { IsStep (Is (Ok (make folder.now.name host (package_name folder.now.name host) self.old))) result self.new }
    {
        let name = package_name(alloc, &folder.name, host)?;
        self.set_places(alloc, folder, &name)?;
        self.packages.put(name, folder.path.copy()?, host)?;
        Ok(())
    }

    /// Sets the three variables of a package.
    fn set_places(&mut self, alloc: Global, folder: &Folder, name: &Bytes) -> Result<(), Memory>
        ensures { OnOk result (self.new ≡ with_places folder.now.name name.now self.old) }
    {
        let prefix = upper_form(alloc, name.as_slice())?;
        self.set_place(alloc, &prefix, b"_NAME", b"", name, b"")?;
        self.set_place(alloc, &prefix, b"_DIR", b"/output/build/", name, b"")?;
        self.set_place(alloc, &prefix, b"_PKGDIR", b"package/", &folder.name, b"/")
    }

    /// Sets a variable to a text between two others.
    fn set_place(
        &mut self,
        alloc: Global,
        prefix: &Bytes,
        suffix: &[u8],
        front: &[u8],
        text: &Bytes,
        back: &[u8],
    ) -> Result<(), Memory>
        ensures { OnOk result (self.new ≡ set self.old (prefix.now ++ suffix.now) (simple (front.now ++ text.now ++ back.now))) }
    {
        let value = joined(alloc, front, text, back)?;
        let name = joined(alloc, b"", prefix, suffix)?;
        self.vars.set(name, true, value)
    }

    /// Whether a test holds.
    pub(crate) fn asks(
        &self,
        alloc: Global,
        folder: &Folder,
        test: &Test,
    ) -> Result<bool, PlanFault>
        ensures { IsAnswer (Asks folder.now.name self.now test.now) result }
    {
        match test {
            Test::Equal {
                left,
                right,
                wanted,
            } => { self.compare(alloc, folder, left, right, *wanted) }
            Test::Defined { name, wanted } => Ok(as_wanted(*wanted, self.is_defined(name))),
        }
    }

    fn compare(
        &self,
        alloc: Global,
        folder: &Folder,
        left: &Bytes,
        right: &Bytes,
        wanted: bool,
    ) -> Result<bool, PlanFault>
        ensures { IsAnswer (Asks folder.now.name self.now (Equal left.now right.now wanted)) result }
    {
        let one = self.value(alloc, folder, b"ifeq", left)?;
        let other = self.value(alloc, folder, b"ifeq", right)?;
        Ok(as_wanted(wanted, one.as_slice() == other.as_slice()))
    }

    fn is_defined(&self, name: &Bytes) -> bool
        ensures { result ≡ is_defined (found self.now.vars name.now) }
    {
        match self.vars.text(name.as_slice()) {
            None => false,
            Some(text) => !text.is_empty(),
        }
    }

    /// The value that a text has now, for a variable or a condition.
    fn value(
        &self,
        alloc: Global,
        folder: &Folder,
        variable: &[u8],
        text: &Bytes,
    ) -> Result<Bytes, PlanFault>
        ensures value { IfOk result (IsValue (found self.now.vars) depth_limit (outside []) text.now) }
        ensures fault { IfErr result (λ fault. fault ≢ no_memory → HasNoValue folder.now.name variable.now self.now.vars text.now fault) }
        ensures held { IfErr result HoldsNoMemory }
    {
        match expand(alloc, &self.vars, text.as_slice(), &Locals::new(alloc)) {
            Ok(bytes) => Ok(bytes),
            Err(fault) => Err(no_value(alloc, folder, variable, fault)),
        }
    }
}

/// The fault of a text that has no value.
fn no_value(alloc: Global, folder: &Folder, variable: &[u8], fault: ExpandFault) -> PlanFault
    ensures fault { result ≢ no_memory → result ≡ Expand folder.now.name variable.now fault }
    ensures some { fault ≡ no_value_memory → result ≡ no_memory }
    ensures held { HoldsNoMemory result }
{
    match fault {
        ExpandFault::Memory => PlanFault::Memory,
        fault => match named(alloc, folder, variable) {
            Ok((package, variable)) => PlanFault::Expand {
                package,
                variable,
                fault,
            },
            Err(_) => {
                drop(fault);
                PlanFault::Memory
            }
        },
    }
}

/// The names of a folder and of a variable.
fn named(alloc: Global, folder: &Folder, variable: &[u8]) -> Result<(Bytes, Bytes), Memory>
    ensures { IfOk result (λ names. (names.0 ≡ folder.now.name) × (names.1 ≡ variable.now)) }
{
    Ok((folder.name.copy()?, Bytes::from_slice(alloc, variable)?))
}

fn as_wanted(wanted: bool, holds: bool) -> bool
    ensures { result ≡ as_wanted wanted holds }
{
    if wanted { holds } else { !holds }
}

/// The name of the package of a folder, or of its host package.
fn package_name(alloc: Global, folder: &Bytes, host: bool) -> Result<Bytes, Memory>
    ensures { IfOk result (λ name. name ≡ package_name folder.now host) }
{
    if host {
        return joined(alloc, b"host-", folder, b"");
    }
    folder.copy()
}
