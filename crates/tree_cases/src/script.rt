//! What a line of a script does.
use crate::act::{ACTS, Act, Rights};
use crate::faults::print_change;
use crate::tasks::Tasks;
use crate::text::{area, path};
use crate::{changes, commands, inputs, looks, shows};
use br_path::{Area, Files};
use case_text::{Page, Stopped, Table, found, number, word};
use std::alloc::Global;
use std::mem::replace;
use tree_ops::TreeOps;

/// The tasks of a case, the files of its input, and the area that its lines are about.
#[derive(Drop)]
pub(crate) struct Script<T: TreeOps> {
    alloc: Global,
    tasks: Tasks<T>,
    files: Files,
    area: Area,
}

impl<T: TreeOps> Table for Script<T> {
    fn line(&mut self, page: &mut Page, word: &[u8], text: &[u8]) -> Result<(), Stopped> {
        match found(&ACTS, word)? {
            Act::Case => self.begin(),
            Act::Input => inputs::add(page, &mut self.files, text),
            Act::In => self.turn(text),
            Act::Task(rights) => self.task(rights),
            Act::Fill => self.fill(page, text),
            Act::Read => self.read(page, text),
            Act::Change(change) => changes::change(page, &mut self.tasks, self.area, change, text),
            Act::Many => changes::mkdirs(page, &mut self.tasks, self.area, text),
            Act::Look(look) => {
                let at = path(self.alloc, text)?;
                looks::look(page, self.tasks.tree(self.area), look, &at)
            }
            Act::Walk(follow) => { looks::walk(page, self.tasks.tree(self.area), text, follow) }
            Act::Show => shows::show(page, self.tasks.tree(self.area)),
            Act::Copy => self.copy(page, text),
            Act::Counts => shows::counts(page, &self.tasks.world().pen),
            Act::Run => commands::command(page, &mut self.tasks, &self.files, text),
        }
    }
}

impl<T: TreeOps> Script<T> {
    pub(crate) fn new(alloc: Global) -> Result<Script<T>, Stopped> {
        Ok(Script {
            alloc,
            tasks: Tasks::new(alloc)?,
            files: Files::new(alloc),
            area: Area::Target,
        })
    }

    fn begin(&mut self) -> Result<(), Stopped> {
        self.tasks = Tasks::new(self.alloc)?;
        self.files = Files::new(self.alloc);
        self.area = Area::Target;
        Ok(())
    }

    fn turn(&mut self, text: &[u8]) -> Result<(), Stopped> {
        self.area = area(text)?;
        Ok(())
    }

    fn task(&mut self, rights: Rights) -> Result<(), Stopped> {
        let tasks = replace(&mut self.tasks, Tasks::new(self.alloc)?);
        self.tasks = tasks.followed(rights)?;
        Ok(())
    }

    fn fill(&mut self, page: &mut Page, text: &[u8]) -> Result<(), Stopped> {
        let (task, from) = word(text);
        let task = number(task)? as usize;
        let outcome = self.tasks.fill(self.area, task, area(from)?)?;
        print_change(page, outcome)
    }

    fn read(&mut self, page: &mut Page, text: &[u8]) -> Result<(), Stopped> {
        self.tasks.read(number(text)?)?;
        shows::readable(page, self.tasks.world())
    }

    /// Shows a copy of the tree that an ended task left in an area.
    fn copy(&self, page: &mut Page, text: &[u8]) -> Result<(), Stopped> {
        let (task, from) = word(text);
        let tree = self.tasks.ended(number(task)? as usize, area(from)?)?;
        shows::copied(page, tree)
    }
}
