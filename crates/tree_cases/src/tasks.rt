//! The tasks of a case: the world of the last, and the trees of those before it.
ghost use Rattle.std.specs.Prelude.{◌≡◌, ◌<◌, ◌^◌, ℕ, All, length, IfOk};
ghost use Rattle.tree_ops.specs.Tree.{IsTree};
ghost use Rattle.tree_ops.specs.Held.{IsSealed};
ghost use Rattle.tree_worlds.specs.Steps.{IsModest};
ghost use Rattle.tree_worlds.specs.World.{trees_data, empty_trees};
ghost use Rattle.tree_worlds.specs.HeldWorld.{IsHeldWorld};
ghost use Rattle.tree_cases.specs.Tasks.{IsLeft, AreLeft, AreSound};

use crate::act::Rights;
use br_path::{Area, Bytes, Files, Memory, Path};
use case_text::Stopped;
use sh_words::Line;
use std::alloc::Global;
use std::marker::Model;
use std::mem::replace;
use tree_ops::{ChangeFault, TreeOps};
use tree_worlds::{CommandError, Reason, Step, Trees, World};

/// The most words of a command.
const MOST_WORDS: usize = 1 << 30;

/// The world of the last task, and the sealed trees of the tasks before it, by their numbers.
#[derive(Drop)]
pub(crate) struct Tasks<T: TreeOps> {
    alloc: Global,
    world: World<T>,
    ended: Vec<Trees<T>>,
}

impl<T: TreeOps> Model for Tasks<T> {
    ghost use Rattle.tree_cases.specs.Tasks.{AreTasks};

    ghost Value = { Unit {0} };

    ghost view = { λ _. tt };

    ghost invariant = { λ t. AreTasks T.tree T.sealed t.world t.ended.items };
}

impl<T: TreeOps> Tasks<T> {
    /// The first task, which is one of a target package.
    pub(crate) fn new(alloc: Global) -> Result<Tasks<T>, Stopped> {
        Ok(Tasks {
            alloc,
            world: begun(alloc, 0, Rights::Target)?,
            ended: Vec::new(alloc),
        })
    }

    pub(crate) fn world(&self) -> &World<T> {
        &self.world
    }

    /// The task's tree of an area.
    pub(crate) fn tree(&self, area: Area) -> &T
        ensures { IsTree (T.tree result.now) }
    {
        self.world.tree(area)
    }

    /// Ends the task, and begins the next.
    pub(crate) fn followed(self, rights: Rights) -> Result<Tasks<T>, Stopped> {
        let Tasks {
            alloc,
            world,
            mut ended,
        } = self;
        let World { trees, pen, .. } = world;
        let number = pen.task.checked_add(1).ok_or(Stopped)?;
        ended.push(sealed(alloc, trees)?)?;
        Ok(Tasks {
            alloc,
            world: begun(alloc, number, rights)?,
            ended,
        })
    }

    /// The tree that an ended task left in an area.
    pub(crate) fn ended(&self, task: usize, area: Area) -> Result<&T, Stopped>
        ensures sound { IfOk result (λ left. IsTree (T.tree left.now)) }
        ensures sealed { IfOk result (λ left. IsSealed (T.tree left.now) (T.sealed left.now)) }
    {
        left(self.ended.as_slice(), task, area)
    }

    /// Changes the tree of an area.
    pub(crate) fn act(&mut self, area: Area, step: Step<'_>) -> Result<(), CommandError>
        requires modest { IsModest step }
    {
        self.world.act(self.alloc, area, step)
    }

    /// Lays the tree that an ended task left in an area over that of an area.
    pub(crate) fn fill(
        &mut self,
        area: Area,
        task: usize,
        from: Area,
    ) -> Result<Result<(), ChangeFault>, Stopped> {
        let left = left(self.ended.as_slice(), task, from)?;
        Ok(self.world.fill(self.alloc, area, left))
    }

    /// Makes the build tree of an ended task readable, as that of a package whose name is `r` and the task's number.
    pub(crate) fn read(&mut self, number: u32) -> Result<(), Stopped> {
        let owner = readable_name(self.alloc, number)?;
        let tree = self.ended(number as usize, Area::Build)?.copy(self.alloc)?;
        Ok(self.world.show(number, owner, tree)?)
    }

    /// Runs a command on files, and gives the reason if it fails.
    pub(crate) fn file_command(
        &mut self,
        files: &Files,
        name: &[u8],
        words: &[Bytes],
    ) -> Result<Option<Reason>, Stopped> {
        if words.len() > MOST_WORDS {
            return Err(Stopped);
        }
        let tasks = replace(self, Tasks::new(self.alloc)?);
        let (tasks, refusal) = tasks.after_files(files, name, words)?;
        *self = tasks;
        Ok(refusal)
    }

    /// Runs a line whose command is one on texts, and gives the reason if it fails.
    pub(crate) fn text_command(
        &mut self,
        files: &Files,
        line: &Line,
    ) -> Result<Option<Reason>, Stopped> {
        if line.words.items.len() > MOST_WORDS {
            return Err(Stopped);
        }
        let tasks = replace(self, Tasks::new(self.alloc)?);
        let (tasks, refusal) = tasks.after_texts(files, line)?;
        *self = tasks;
        Ok(refusal)
    }

    /// The tasks after a command on files, and the reason if it fails. If it is out of memory, they are let go.
    fn after_files(
        self,
        files: &Files,
        name: &[u8],
        words: &[Bytes],
    ) -> Result<(Tasks<T>, Option<Reason>), Stopped>
        requires { length words.now < 2 ^ 32 }
    {
        let Tasks {
            alloc,
            mut world,
            ended,
        } = self;
        let refusal = match sh_files::run(alloc, &mut world, files, name, words) {
            Ok(()) => None,
            Err(CommandError::Failed(reason)) => Some(reason),
            Err(CommandError::Memory) => return Err(Stopped),
        };
        let tasks = Tasks {
            alloc,
            world,
            ended,
        };
        Ok((tasks, refusal))
    }

    /// The same after a line whose command is one on texts.
    fn after_texts(self, files: &Files, line: &Line) -> Result<(Tasks<T>, Option<Reason>), Stopped>
        requires { length line.now.words < 2 ^ 32 }
    {
        let Tasks {
            alloc,
            mut world,
            ended,
        } = self;
        let refusal = match sh_text::run(alloc, &mut world, files, line) {
            Ok(()) => None,
            Err(CommandError::Failed(reason)) => Some(reason),
            Err(CommandError::Memory) => return Err(Stopped),
        };
        let tasks = Tasks {
            alloc,
            world,
            ended,
        };
        Ok((tasks, refusal))
    }
}

fn readable_name(alloc: Global, number: u32) -> Result<Bytes, Stopped> {
    let name = format!(in alloc; "r{number}")?;
    Ok(Bytes::from_slice(alloc, name.as_bytes())?)
}

/// The world in which a task begins.
fn begun<T: TreeOps>(alloc: Global, task: u32, rights: Rights) -> Result<World<T>, Stopped>
    ensures trees { IfOk result (λ world. trees_data T.tree world.trees ≡ empty_trees) }
    ensures task { IfOk result (λ world. world.pen.task ≡ task) }
    ensures held { IfOk result (IsHeldWorld T.tree T.sealed) }
{
    let owner = Bytes::from_slice(alloc, b"p")?;
    let folder = Path::parse(alloc, b"package/p")?;
    let (host, prep) = match rights {
        Rights::Prep => (false, true),
        Rights::Host => (true, false),
        Rights::Target => (false, false),
    };
    Ok(World::new(alloc, task, owner, folder, host, prep)?)
}

fn sealed<T: TreeOps>(alloc: Global, trees: Trees<T>) -> Result<Trees<T>, Memory>
    ensures { IfOk result (λ done. (limit : ℕ) → AreSound T.tree limit trees → AreLeft T.tree T.sealed limit done) }
{
    let Trees {
        build,
        host,
        staging,
        target,
    } = trees;
    Ok(Trees {
        build: build.seal(alloc)?,
        host: host.seal(alloc)?,
        staging: staging.seal(alloc)?,
        target: target.seal(alloc)?,
    })
}

/// The tree that a task left in an area.
fn left<T: TreeOps>(ended: &[Trees<T>], task: usize, area: Area) -> Result<&T, Stopped>
    ensures { (limit : ℕ) → All (AreLeft T.tree T.sealed limit) ended.now → IfOk result (λ left. IsLeft T.tree T.sealed limit left.now) }
{
    match ended.get(task) {
        Some(trees) => Ok(tree(trees, area)),
        None => Err(Stopped),
    }
}

fn tree<T: TreeOps>(trees: &Trees<T>, area: Area) -> &T
    ensures { (limit : ℕ) → AreLeft T.tree T.sealed limit trees.now → IsLeft T.tree T.sealed limit result.now }
{
    match area {
        Area::Build => &trees.build,
        Area::Host => &trees.host,
        Area::Staging => &trees.staging,
        Area::Target => &trees.target,
    }
}
