//! What the lines of recipes do.
ghost use Rattle.build_workers.specs.Recipes.{recipe_shell};

use br_path::Files;
use pkg_steps::Commands;
use std::alloc::Global;
use tree_ops::TreeOps;
use tree_worlds::{CommandError, World};

/// More bytes than any line of a plan has.
const LONGEST: usize = 1 << 31;

/// The lines of recipes over the files of the input.
#[derive(Clone, Copy)]
pub struct RecipeLines<'f> {
    pub files: &'f Files,
}

impl<'f, T: TreeOps> Commands<T> for RecipeLines<'f> {
    ghost shell = { λ lines. recipe_shell lines.files.now };

    // No line of a plan is too long: it has at most 262,144 bytes.
    fn line(&self, alloc: Global, world: &mut World<T>, text: &[u8]) -> Result<(), CommandError> {
        if text.len() > LONGEST {
            return Err(CommandError::Memory);
        }
        sh_lines::run(alloc, world, self.files, text)
    }

    fn copy_source(&self, alloc: Global, world: &mut World<T>) -> Result<(), CommandError> {
        sh_lines::copy_source(alloc, world, self.files)
    }
}
