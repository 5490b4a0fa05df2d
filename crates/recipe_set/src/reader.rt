//! The reading of statements, one by one, with the conditions that stand open.
ghost use Rattle.std.specs.Prelude.{◌≡◌, ◌≢◌, List, [], ◌∷◌, Ok, Err, IfOk, IfErr};
ghost use Rattle.mk_syntax.specs.declared.recipe.What.TheVariants.{If, ElseIf, Else, EndIf};
ghost use Rattle.recipe_set.specs.declared.fault.PlanFault.TheVariants.{Memory as no_memory};
ghost use Rattle.recipe_set.specs.declared.branch.Branch.{Branch as BranchValue};
ghost use Rattle.recipe_set.specs.declared.branch.Branch.TheVariants.{Passed};
ghost use Rattle.recipe_set.specs.Effect.{Is};
ghost use Rattle.recipe_set.specs.Fault.{HoldsNoMemory};
ghost use Rattle.recipe_set.specs.Found.{IsPlaced};
ghost use Rattle.recipe_set.specs.Steps.{IsStep, Steps, Meets, Skips, Begins, Tries, Runs, at, closed, passed, turned};
ghost use Rattle.recipe_set.specs.Block.{whats};

use crate::branch::{Branch, Conditions};
use crate::draft::Draft;
use crate::fault::PlanFault;
use crate::folder::Folder;
use br_path::Memory;
use mk_syntax::{Recipe, Test, What};
use std::alloc::Global;

/// What is read so far, with the conditions that stand open.
#[derive(Drop)]
pub(crate) struct Reader {
    draft: Draft,
    around: Conditions,
}

impl Reader {
    /// Reads one more statement, or leaves it out.
    fn take(&mut self, alloc: Global, folder: &Folder, what: What) -> Result<(), PlanFault>
        requires { IsPlaced folder.now }
        ensures { IsStep (Steps folder.now.name self.old what) result self.new }
    {
        if self.around.is_reading() {
            return self.meet(alloc, folder, what);
        }
        let skipped = self.skip(alloc, folder, &what);
        drop(what);
        skipped
    }

    fn meet(&mut self, alloc: Global, folder: &Folder, what: What) -> Result<(), PlanFault>
        requires { IsPlaced folder.now }
        ensures { IsStep (Meets folder.now.name self.old.draft self.old.around what) result self.new }
    {
        match what {
            What::Set { name, how, text } => self.draft.set(alloc, folder, name, how, text),
            What::Define { name, text } => self.draft.set_later(name, text),
            What::Make { host } => self.draft.make(alloc, folder, host),
            What::If(test) => self.begin(alloc, folder, &test),
            What::ElseIf(_) => self.pass(),
            What::Else => self.pass(),
            What::EndIf => self.end(),
        }
    }

    fn skip(&mut self, alloc: Global, folder: &Folder, what: &What) -> Result<(), PlanFault>
        ensures { IsStep (Skips folder.now.name self.old.draft self.old.around what.now) result self.new }
    {
        match what {
            What::Set { .. } => Ok(()),
            What::Define { .. } => Ok(()),
            What::Make { .. } => Ok(()),
            What::If(_) => Ok(self.around.push(Branch::Passed)?),
            What::ElseIf(test) => self.turn(alloc, folder, test),
            What::Else => self.turn_last(),
            What::EndIf => self.end(),
        }
    }

    /// Asks a test, and begins its branch.
    fn begin(&mut self, alloc: Global, folder: &Folder, test: &Test) -> Result<(), PlanFault>
        ensures { IsStep (Begins folder.now.name self.old.draft self.old.around test.now) result self.new }
    {
        if self.draft.asks(alloc, folder, test)? {
            self.around.push(Branch::Taken)?;
            return Ok(());
        }
        self.around.push(Branch::Sought)?;
        Ok(())
    }

    /// A further branch with a test, where what stands before it isn't read.
    fn turn(&mut self, alloc: Global, folder: &Folder, test: &Test) -> Result<(), PlanFault>
        ensures { IsStep (Tries folder.now.name self.old.draft self.old.around test.now) result self.new }
    {
        match self.around.pop() {
            None => Ok(()),
            Some(Branch::Sought) => self.begin(alloc, folder, test),
            Some(Branch::Taken) => self.leave_out(),
            Some(Branch::Passed) => self.leave_out(),
        }
    }

    /// The last branch, where what stands before it isn't read.
    fn turn_last(&mut self) -> Result<(), PlanFault>
        ensures { IsStep (Is (Ok (at self.old.draft (turned self.old.around)))) result self.new }
    {
        match self.around.pop() {
            None => Ok(()),
            Some(Branch::Sought) => Ok(self.around.push(Branch::Taken)?),
            Some(Branch::Taken) => self.leave_out(),
            Some(Branch::Passed) => self.leave_out(),
        }
    }

    /// A further branch after the one that was taken.
    fn pass(&mut self) -> Result<(), PlanFault>
        ensures { IsStep (Is (Ok (at self.old.draft (passed self.old.around)))) result self.new }
    {
        match self.around.pop() {
            None => Ok(()),
            Some(_) => self.leave_out(),
        }
    }

    /// Begins what is left out.
    fn leave_out(&mut self) -> Result<(), PlanFault>
        ensures { IsStep (Is (Ok (at self.old.draft (Passed ∷ self.old.around)))) result self.new }
    {
        self.around.push(Branch::Passed)?;
        Ok(())
    }

    fn end(&mut self) -> Result<(), PlanFault>
        ensures { IsStep (Is (Ok (at self.old.draft (closed self.old.around)))) result self.new }
    {
        let _branch = self.around.pop();
        Ok(())
    }
}

/// Reads the statements of a recipe.
pub(crate) fn read_statements(
    alloc: Global,
    folder: &Folder,
    draft: Draft,
    recipe: Recipe,
) -> Result<Draft, PlanFault>
    requires { IsPlaced folder.now }
    ensures draft { IfOk result (λ new. (around : List BranchValue) × Runs folder.now.name (at draft []) (whats recipe) (Ok (at new around))) }
    ensures fault { IfErr result (λ fault. fault ≢ no_memory → Runs folder.now.name (at draft []) (whats recipe) (Err fault)) }
    ensures held { IfErr result HoldsNoMemory }
{
    let mut reader = Reader {
        draft,
        around: Conditions::new(alloc),
    };
    for statement in recipe.items {
        if let Err(fault) = reader.take(alloc, folder, statement.what) {
            drop(reader);
            return Err(fault);
        }
    }
    Ok(reader.draft)
}
