//! The bytes and the mode of a file, put where a copy of it goes.
ghost use Rattle.std.specs.Prelude.{◌≡◌, ◌≤◌};
ghost use Rattle.tree_ops.specs.Change.{SetMode};
ghost use Rattle.tree_worlds.specs.World.{world_data};
ghost use Rattle.tree_worlds.specs.Program.{Done, run, Ran};
ghost use Rattle.tree_worlds.specs.HeldWorld.{IsHeldWorld};
ghost use Rattle.sh_places.specs.Parts.{act_in, choose};
ghost use Rattle.sh_files.specs.Copying as copying;

use crate::copying::Manner;
use crate::room::make_file;
use sh_places::{Kind, Spot, act_in, is_same_file};
use std::alloc::Global;
use tree_ops::{ChangeFault, Label, TreeOps};
use tree_worlds::{CommandError, Reason, Step, World, error_of};

/// What a file is copied from.
#[derive(Clone, Copy)]
pub(crate) struct Contents<'a> {
    pub(crate) source: &'a Spot,
    pub(crate) label: Option<Label>,
    pub(crate) mode: u16,
    pub(crate) bytes: &'a [u8],
}

impl<'a> Contents<'a> {
    /// Puts the bytes at a followed place, by what stands there.
    pub(crate) fn put<T: TreeOps>(
        &self,
        alloc: Global,
        world: &mut World<T>,
        manner: Manner,
        at: &Spot,
        dangling: bool,
        there: Option<Kind>,
    ) -> Result<(), CommandError>
        requires mode { self.now.mode ≤ 4095 }
        requires held { IsHeldWorld T.tree T.sealed world.old }
        ensures ran { Ran (run (copying.copy_bytes manner self.now.source.now self.now.label self.now.mode self.now.bytes.now at.now dangling there) (world_data T.tree world.old)) result (world_data T.tree world.new) }
        ensures held { IsHeldWorld T.tree T.sealed world.new }
    {
        match there {
            Some(Kind::Dir(_)) => Err(error_of(ChangeFault::IsDir)),
            Some(Kind::Link) => Err(error_of(ChangeFault::Absent)),
            Some(Kind::File(other)) => {
                if is_same_file(self.source.site, self.label, at.site, other) {
                    return Err(CommandError::Failed(Reason::Same));
                }
                self.overwrite(alloc, world, manner, at)
            }
            None if dangling => Err(error_of(ChangeFault::Absent)),
            None => make_file(alloc, world, at, manner.made_mode(self.mode), self.bytes),
        }
    }

    /// Writes the bytes over those of a file.
    fn overwrite<T: TreeOps>(
        &self,
        alloc: Global,
        world: &mut World<T>,
        manner: Manner,
        at: &Spot,
    ) -> Result<(), CommandError>
        requires mode { self.now.mode ≤ 4095 }
        requires held { IsHeldWorld T.tree T.sealed world.old }
        ensures ran { Ran (run (copying.overwrite manner at.now self.now.mode self.now.bytes.now) (world_data T.tree world.old)) result (world_data T.tree world.new) }
        ensures held { IsHeldWorld T.tree T.sealed world.new }
    {
        act_in(alloc, world, at.site, Step::Write(&at.path, self.bytes))?;
        manner.keep_mode(alloc, world, at, self.mode)
    }
}

impl Manner {
    /// With `p`, gives what is there a mode.
    pub(crate) fn keep_mode<T: TreeOps>(
        self,
        alloc: Global,
        world: &mut World<T>,
        at: &Spot,
        mode: u16,
    ) -> Result<(), CommandError>
        requires mode { mode ≤ 4095 }
        requires held { IsHeldWorld T.tree T.sealed world.old }
        ensures ran { Ran (run (choose self.modes (act_in at.now.site (SetMode at.now.path mode)) (Done tt)) (world_data T.tree world.old)) result (world_data T.tree world.new) }
        ensures held { IsHeldWorld T.tree T.sealed world.new }
    {
        if self.modes {
            act_in(alloc, world, at.site, Step::SetMode(&at.path, mode))
        } else {
            Ok(())
        }
    }

    /// The mode of what is made.
    pub(crate) fn made_mode(self, mode: u16) -> u16
        requires limit { mode ≤ 4095 }
        ensures mode { result ≡ copying.made_mode self mode }
        ensures limit { result ≤ 4095 }
    {
        if self.modes { mode } else { mode & 0o755 }
    }
}
