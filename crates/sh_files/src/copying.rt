//! cp.
//!
//! `cp -a package/foo/src/. /output/target` puts what the folder has in it into the target tree: its folders are made or
//! stay, its files are written over those that are there, its links are made anew, and names of one file stay names of one file.
ghost use Rattle.std.specs.Prelude.{◌≡◌, ◌≤◌, ◌++◌, ◌∷◌, [], All, IfOk, Some, None};
ghost use Rattle.std.specs.Option.{option_copied};
ghost use Rattle.br_path.specs.Path.{IsPath};
ghost use Rattle.tree_worlds.specs.World.{world_data};
ghost use Rattle.tree_worlds.specs.Program.{run, Ran};
ghost use Rattle.tree_worlds.specs.HeldWorld.{IsHeldWorld};
ghost use Rattle.sh_places.specs.declared.kind.Kind.TheVariants.{Link as link_kind};
ghost use Rattle.sh_places.specs.Looks.{IsModest, kind_at, text_at};
ghost use Rattle.sh_places.specs.Parts.{attempt};
ghost use Rattle.sh_files.specs.Copying as copying;
ghost use Rattle.sh_files.specs.Leaving.{RanTo};

use crate::contents::Contents;
use crate::copied::Copied;
use crate::goal::{Goal, base_for, goal_for, place_for, sources_of};
use crate::leading::{followed, is_within};
use crate::removing::DEPTH;
use crate::room::{is_link, make_room};
use br_path::{Bytes, Files, is_text};
use sh_places::{
    Kind, Spot, act_in, bytes_at, entry_of, find, kind_at, mode_at, names_at, place_below, text_at,
};
use std::alloc::Global;
use tree_ops::{ChangeFault, Label, TreeOps};
use tree_worlds::{CommandError, Step, World, error_of};

/// How copies are made.
#[derive(Clone, Copy)]
pub(crate) struct Manner {
    /// `d`: names of one file stay names of one file.
    pub(crate) links: bool,
    /// `p`: modes are kept.
    pub(crate) modes: bool,
    /// `r`: folders are copied.
    pub(crate) folders: bool,
    /// Without `P`, `d` and `r`: a source's last link is followed.
    pub(crate) follow: bool,
}

/// Copies each source to its goal.
pub(crate) fn cp<T: TreeOps>(
    alloc: Global,
    world: &mut World<T>,
    files: &Files,
    manner: Manner,
    into: Option<&[u8]>,
    operands: &[Bytes],
) -> Result<(), CommandError>
    requires held { IsHeldWorld T.tree T.sealed world.old }
    ensures ran { Ran (run (copying.cp files.now manner (option_copied into.entry) operands.now) (world_data T.tree world.old)) result (world_data T.tree world.new) }
    ensures held { IsHeldWorld T.tree T.sealed world.new }
{
    let goal = goal_for(alloc, world, files, false, into, operands)?;
    let copier = Copier { files, manner };
    copier.copy_sources(alloc, world, sources_of(into, operands), &goal)
}

/// What one command copies from, and how.
#[derive(Clone, Copy)]
struct Copier<'a> {
    files: &'a Files,
    manner: Manner,
}

impl<'a> Copier<'a> {
    /// Copies each source to the goal.
    fn copy_sources<T: TreeOps>(
        &self,
        alloc: Global,
        world: &mut World<T>,
        sources: &[Bytes],
        goal: &Goal,
    ) -> Result<(), CommandError>
        requires held { IsHeldWorld T.tree T.sealed world.old }
        ensures ran { Ran (run (copying.copy_sources self.now.files.now self.now.manner sources.now goal.now) (world_data T.tree world.old)) result (world_data T.tree world.new) }
        ensures held { IsHeldWorld T.tree T.sealed world.new }
    {
        let mut copied = Copied::new(alloc);
        self.copy_words(alloc, world, goal, &mut copied, sources)?;
        Ok(())
    }

    /// Copies sources, after those that were copied.
    fn copy_words<T: TreeOps>(
        &self,
        alloc: Global,
        world: &mut World<T>,
        goal: &Goal,
        copied: &mut Copied,
        words: &[Bytes],
    ) -> Result<(), CommandError>
        requires held { IsHeldWorld T.tree T.sealed world.old }
        ensures ran { RanTo (run (copying.each_copy (copying.copy_source self.now.files.now self.now.manner goal.now) (copying.places_of copied.old) words.now) (world_data T.tree world.old)) result (copying.places_of copied.new) (world_data T.tree world.new) }
        ensures held { IsHeldWorld T.tree T.sealed world.new }
    {
        for word in words {
            self.copy_source(alloc, world, goal, copied, word.as_slice())?;
        }
        Ok(())
    }

    /// Copies a source: what a folder has in it, or an object itself.
    fn copy_source<T: TreeOps>(
        &self,
        alloc: Global,
        world: &mut World<T>,
        goal: &Goal,
        copied: &mut Copied,
        word: &[u8],
    ) -> Result<(), CommandError>
        requires held { IsHeldWorld T.tree T.sealed world.old }
        ensures ran { RanTo (run (copying.copy_source self.now.files.now self.now.manner goal.now (copying.places_of copied.old) word.now) (world_data T.tree world.old)) result (copying.places_of copied.new) (world_data T.tree world.new) }
        ensures held { IsHeldWorld T.tree T.sealed world.new }
    {
        if ends_in_dot(word) {
            self.copy_entries(alloc, world, goal, copied, word)
        } else {
            self.copy_object(alloc, world, goal, copied, word)
        }
    }

    /// Copies what a folder has in it to the goal itself.
    fn copy_entries<T: TreeOps>(
        &self,
        alloc: Global,
        world: &mut World<T>,
        goal: &Goal,
        copied: &mut Copied,
        word: &[u8],
    ) -> Result<(), CommandError>
        requires held { IsHeldWorld T.tree T.sealed world.old }
        ensures ran { RanTo (run (copying.copy_entries self.now.files.now self.now.manner goal.now (copying.places_of copied.old) word.now) (world_data T.tree world.old)) result (copying.places_of copied.new) (world_data T.tree world.new) }
        ensures held { IsHeldWorld T.tree T.sealed world.new }
    {
        let source = find(alloc, world, self.files, word, self.manner.follow)?;
        let mode = self.folder_at(world, &source)?;
        self.copy_folder(alloc, world, copied, &source, mode, goal.place(), DEPTH)
    }

    /// The mode of a folder whose entries can be copied.
    fn folder_at<T: TreeOps>(&self, world: &World<T>, place: &Spot) -> Result<u16, CommandError>
        requires held { IsHeldWorld T.tree T.sealed world.now }
        ensures ran { Ran (run (attempt (copying.folder_mode self.now.manner (kind_at (world_data T.tree world.now) self.now.files.now place.now))) (world_data T.tree world.now)) result (world_data T.tree world.now) }
        ensures modest { IfOk result (λ mode. mode ≤ 4095) }
    {
        match kind_at(world, self.files, place) {
            None => Err(error_of(ChangeFault::Absent)),
            Some(Kind::Dir(mode)) if self.manner.folders => Ok(mode),
            Some(Kind::Dir(_)) => Err(error_of(ChangeFault::IsDir)),
            Some(_) => Err(error_of(ChangeFault::NotDir)),
        }
    }

    /// Copies an object to its place.
    #[tactic(auto, using(crate::proofs::Copies::ran_given))]
    fn copy_object<T: TreeOps>(
        &self,
        alloc: Global,
        world: &mut World<T>,
        goal: &Goal,
        copied: &mut Copied,
        word: &[u8],
    ) -> Result<(), CommandError>
        requires held { IsHeldWorld T.tree T.sealed world.old }
        ensures ran { RanTo (run (copying.copy_object self.now.files.now self.now.manner goal.now (copying.places_of copied.old) word.now) (world_data T.tree world.old)) result (copying.places_of copied.new) (world_data T.tree world.new) }
        ensures held { IsHeldWorld T.tree T.sealed world.new }
    {
        let base = base_for(alloc, goal, word)?;
        let source = find(alloc, world, self.files, word, self.manner.follow)?;
        let kind = self.object_at(world, &source)?;
        let place = place_for(alloc, goal, base.as_slice())?;
        self.copy_kind(alloc, world, copied, &source, &place, kind, DEPTH)
    }

    /// What can be copied: something, and a folder only with `r`.
    fn object_at<T: TreeOps>(&self, world: &World<T>, place: &Spot) -> Result<Kind, CommandError>
        requires held { IsHeldWorld T.tree T.sealed world.now }
        ensures ran { Ran (run (attempt (copying.copyable self.now.manner (kind_at (world_data T.tree world.now) self.now.files.now place.now))) (world_data T.tree world.now)) result (world_data T.tree world.now) }
        ensures there { IfOk result (λ kind. kind_at (world_data T.tree world.now) self.now.files.now place.now ≡ Some kind) }
        ensures modest { IfOk result IsModest }
    {
        match kind_at(world, self.files, place) {
            None => Err(error_of(ChangeFault::Absent)),
            Some(Kind::Dir(_)) if !self.manner.folders => Err(error_of(ChangeFault::IsDir)),
            Some(kind) => Ok(kind),
        }
    }

    /// Copies what stands at a place, to a depth.
    #[cycle(copy)]
    fn copy_kind<T: TreeOps>(
        &self,
        alloc: Global,
        world: &mut World<T>,
        copied: &mut Copied,
        source: &Spot,
        place: &Spot,
        kind: Kind,
        depth: u32,
    ) -> Result<(), CommandError>
        requires there { kind_at (world_data T.tree world.old) self.now.files.now source.now ≡ Some kind }
        requires modest { IsModest kind }
        requires held { IsHeldWorld T.tree T.sealed world.old }
        ensures ran { RanTo (run (copying.copy_kind (copying.copy_below depth self.now.files.now self.now.manner) self.now.files.now self.now.manner (copying.places_of copied.old) source.now place.now kind) (world_data T.tree world.old)) result (copying.places_of copied.new) (world_data T.tree world.new) }
        ensures held { IsHeldWorld T.tree T.sealed world.new }
    {
        match kind {
            Kind::Link => self.copy_link(alloc, world, source, place),
            Kind::File(label) => self.copy_file(alloc, world, copied, source, label, place),
            Kind::Dir(mode) => self.copy_folder(alloc, world, copied, source, mode, place, depth),
        }
    }

    /// Makes a link of equal text.
    fn copy_link<T: TreeOps>(
        &self,
        alloc: Global,
        world: &mut World<T>,
        source: &Spot,
        place: &Spot,
    ) -> Result<(), CommandError>
        requires there { kind_at (world_data T.tree world.old) self.now.files.now source.now ≡ Some link_kind }
        requires held { IsHeldWorld T.tree T.sealed world.old }
        ensures ran { Ran (run (copying.copy_link place.now (text_at (world_data T.tree world.old) source.now) (kind_at (world_data T.tree world.old) self.now.files.now place.now)) (world_data T.tree world.old)) result (world_data T.tree world.new) }
        ensures held { IsHeldWorld T.tree T.sealed world.new }
    {
        let text = Bytes::from_slice(alloc, text_at(world, source))?;
        make_room(alloc, world, place, kind_at(world, self.files, place))?;
        act_in(
            alloc,
            world,
            place.site,
            Step::MakeLink(&place.path, text.as_slice()),
        )
    }

    /// Copies a file's bytes; or, if the file was copied before and its names are to stay together, makes one more name of the first copy.
    fn copy_file<T: TreeOps>(
        &self,
        alloc: Global,
        world: &mut World<T>,
        copied: &mut Copied,
        source: &Spot,
        label: Option<Label>,
        place: &Spot,
    ) -> Result<(), CommandError>
        requires held { IsHeldWorld T.tree T.sealed world.old }
        ensures ran { RanTo (run (copying.copy_file self.now.files.now self.now.manner (copying.places_of copied.old) source.now label place.now) (world_data T.tree world.old)) result (copying.places_of copied.new) (world_data T.tree world.new) }
        ensures held { IsHeldWorld T.tree T.sealed world.new }
    {
        match copied.known(self.manner, label) {
            Some(first) => self.copy_name(alloc, world, first, place),
            None => self.copy_new(alloc, world, copied, source, label, place),
        }
    }

    /// Makes one more name of a first copy.
    fn copy_name<T: TreeOps>(
        &self,
        alloc: Global,
        world: &mut World<T>,
        first: &Spot,
        place: &Spot,
    ) -> Result<(), CommandError>
        requires held { IsHeldWorld T.tree T.sealed world.old }
        ensures ran { Ran (run (copying.copy_name first.now place.now (kind_at (world_data T.tree world.old) self.now.files.now place.now)) (world_data T.tree world.old)) result (world_data T.tree world.new) }
        ensures held { IsHeldWorld T.tree T.sealed world.new }
    {
        make_room(alloc, world, place, kind_at(world, self.files, place))?;
        act_in(
            alloc,
            world,
            place.site,
            Step::AddName(&first.path, &place.path),
        )
    }

    /// Copies the bytes of a file that wasn't copied before.
    fn copy_new<T: TreeOps>(
        &self,
        alloc: Global,
        world: &mut World<T>,
        copied: &mut Copied,
        source: &Spot,
        label: Option<Label>,
        place: &Spot,
    ) -> Result<(), CommandError>
        requires held { IsHeldWorld T.tree T.sealed world.old }
        ensures ran { RanTo (run (copying.copy_file_or_name self.now.files.now self.now.manner (copying.places_of copied.old) source.now label place.now None) (world_data T.tree world.old)) result (copying.places_of copied.new) (world_data T.tree world.new) }
        ensures held { IsHeldWorld T.tree T.sealed world.new }
    {
        let at = self.copy_contents(alloc, world, source, label, place)?;
        copied.put(self.manner, label, at)?;
        Ok(())
    }

    /// Copies a file's bytes to where a place leads.
    fn copy_contents<T: TreeOps>(
        &self,
        alloc: Global,
        world: &mut World<T>,
        source: &Spot,
        label: Option<Label>,
        place: &Spot,
    ) -> Result<Spot, CommandError>
        requires held { IsHeldWorld T.tree T.sealed world.old }
        ensures ran { Ran (run (copying.copy_contents self.now.files.now self.now.manner source.now label place.now) (world_data T.tree world.old)) result (world_data T.tree world.new) }
        ensures held { IsHeldWorld T.tree T.sealed world.new }
    {
        let at = followed(alloc, world, self.files, place)?;
        let bytes = Bytes::from_slice(alloc, bytes_at(world, self.files, source))?;
        let contents = Contents {
            source,
            label,
            mode: mode_at(world, source),
            bytes: bytes.as_slice(),
        };
        let dangling = is_link(kind_at(world, self.files, place));
        let there = kind_at(world, self.files, &at);
        contents.put(alloc, world, self.manner, &at, dangling, there)?;
        Ok(at)
    }

    /// Copies a folder with what stands below it, to a depth, to where a place leads.
    #[cycle(copy)]
    fn copy_folder<T: TreeOps>(
        &self,
        alloc: Global,
        world: &mut World<T>,
        copied: &mut Copied,
        source: &Spot,
        mode: u16,
        place: &Spot,
        depth: u32,
    ) -> Result<(), CommandError>
        requires mode { mode ≤ 4095 }
        requires held { IsHeldWorld T.tree T.sealed world.old }
        ensures ran { RanTo (run (copying.copy_folder (copying.copy_below depth self.now.files.now self.now.manner) self.now.files.now self.now.manner (copying.places_of copied.old) source.now mode place.now) (world_data T.tree world.old)) result (copying.places_of copied.new) (world_data T.tree world.new) }
        ensures held { IsHeldWorld T.tree T.sealed world.new }
    {
        if is_within(source, place) {
            return Err(error_of(ChangeFault::Loop));
        }
        let at = followed(alloc, world, self.files, place)?;
        if is_within(source, &at) {
            return Err(error_of(ChangeFault::Loop));
        }
        self.make_copy(alloc, world, mode, &at)?;
        self.copy_below(alloc, world, copied, source, &at, depth)
    }

    /// The folder at a followed place: made, or left.
    fn make_copy<T: TreeOps>(
        &self,
        alloc: Global,
        world: &mut World<T>,
        mode: u16,
        at: &Spot,
    ) -> Result<(), CommandError>
        requires mode { mode ≤ 4095 }
        requires held { IsHeldWorld T.tree T.sealed world.old }
        ensures ran { Ran (run (copying.make_copy self.now.manner mode at.now (kind_at (world_data T.tree world.old) self.now.files.now at.now)) (world_data T.tree world.old)) result (world_data T.tree world.new) }
        ensures held { IsHeldWorld T.tree T.sealed world.new }
    {
        match kind_at(world, self.files, at) {
            None => act_in(
                alloc,
                world,
                at.site,
                Step::MakeDir(&at.path, self.manner.made_mode(mode)),
            ),
            Some(Kind::Dir(_)) => self.manner.keep_mode(alloc, world, at, mode),
            Some(_) => Err(error_of(ChangeFault::NotDir)),
        }
    }

    /// Copies the entries of a folder, by name, into another.
    #[cycle(copy)]
    #[tactic(auto, using(crate::proofs::Copies::copy_none, crate::proofs::Copies::copy_more))]
    fn copy_below<T: TreeOps>(
        &self,
        alloc: Global,
        world: &mut World<T>,
        copied: &mut Copied,
        source: &Spot,
        at: &Spot,
        depth: u32,
    ) -> Result<(), CommandError>
        requires held { IsHeldWorld T.tree T.sealed world.old }
        ensures ran { RanTo (run (copying.copy_below depth self.now.files.now self.now.manner (copying.places_of copied.old) source.now at.now) (world_data T.tree world.old)) result (copying.places_of copied.new) (world_data T.tree world.new) }
        ensures held { IsHeldWorld T.tree T.sealed world.new }
    {
        if depth == 0 {
            return Ok(());
        }
        let names = names_at(alloc, world, self.files, source)?;
        self.copy_names(
            alloc,
            world,
            copied,
            source,
            at,
            names.items.as_slice(),
            depth - 1,
        )
    }

    /// Copies entries of a folder, one after another.
    #[cycle(copy)]
    fn copy_names<T: TreeOps>(
        &self,
        alloc: Global,
        world: &mut World<T>,
        copied: &mut Copied,
        source: &Spot,
        at: &Spot,
        names: &[Bytes],
        depth: u32,
    ) -> Result<(), CommandError>
        requires paths { All (λ name. IsPath (source.now.path ++ name ∷ [])) names.now }
        requires held { IsHeldWorld T.tree T.sealed world.old }
        ensures ran { RanTo (run (copying.each_copy (copying.copy_entry (copying.copy_below depth self.now.files.now self.now.manner) self.now.files.now self.now.manner source.now at.now) (copying.places_of copied.old) names.now) (world_data T.tree world.old)) result (copying.places_of copied.new) (world_data T.tree world.new) }
        ensures held { IsHeldWorld T.tree T.sealed world.new }
    {
        for name in names {
            self.copy_entry(alloc, world, copied, source, at, name.as_slice(), depth)?;
        }
        Ok(())
    }

    /// Copies an entry of a folder into another.
    #[cycle(copy)]
    #[tactic(auto, using(crate::proofs::Copies::ran_given, crate::proofs::Copies::step_of))]
    fn copy_entry<T: TreeOps>(
        &self,
        alloc: Global,
        world: &mut World<T>,
        copied: &mut Copied,
        source: &Spot,
        at: &Spot,
        name: &[u8],
        depth: u32,
    ) -> Result<(), CommandError>
        requires path { IsPath (source.now.path ++ name.now ∷ []) }
        requires held { IsHeldWorld T.tree T.sealed world.old }
        ensures ran { RanTo (run (copying.copy_entry (copying.copy_below depth self.now.files.now self.now.manner) self.now.files.now self.now.manner source.now at.now (copying.places_of copied.old) name.now) (world_data T.tree world.old)) result (copying.places_of copied.new) (world_data T.tree world.new) }
        ensures held { IsHeldWorld T.tree T.sealed world.new }
    {
        let entry = entry_of(alloc, source, name)?;
        let kind = self.object_at(world, &entry)?;
        let place = place_below(alloc, at, name)?;
        self.copy_kind(alloc, world, copied, &entry, &place, kind, depth)
    }
}

/// Whether a word ends in `/.`.
fn ends_in_dot(word: &[u8]) -> bool
    ensures { result ≡ copying.ends_in_dot word.now }
{
    is_text(&word[word.len().saturating_sub(2)..], b"/.")
}
