//! Which makes wrote each path of an area.
ghost use Rattle.std.specs.Prelude.{◌≡◌, OnOk};
ghost use Rattle.std.specs.FinMap as fin;
ghost use Rattle.root_merge.specs.Found as found;

use br_path::{Area, Memory, Numbers, Path};
use std::alloc::{AllocError, Global};
use std::collections::BTreeMap;
use std::marker::Model;
use task_shelves::Written;

/// The makes that wrote each path of an area, in the order in which they are added.
#[derive(Drop)]
pub(crate) struct Writers {
    pub(crate) makes: BTreeMap<Path, Numbers>,
}

impl Model for Writers {
    ghost use Rattle.std.specs.FinMap as fin;
    ghost use Rattle.root_merge.specs.Found.{Makes, coded_makes};

    ghost Value = { Makes };

    ghost coded = { coded_makes };

    ghost view = { λ w. fin.from_entries w.makes.entries };
}

impl Writers {
    /// No paths.
    pub(crate) fn new(alloc: Global) -> Writers
        ensures { result ≡ fin.empty }
    {
        Writers {
            makes: BTreeMap::new(alloc),
        }
    }

    /// Adds a make to each path of the area that it wrote. It may stand among those written twice.
    pub(crate) fn add_all(
        &mut self,
        alloc: Global,
        area: Area,
        written: &Written,
        make: u32,
    ) -> Result<(), Memory>
        ensures { OnOk result (self.new ≡ found.all_noted area make written.now self.old) }
    {
        for (one, path) in &written.items {
            if *one == area {
                self.add(alloc, path, make)?;
            }
        }
        Ok(())
    }

    /// Adds a make to a path, if it isn't the last there.
    fn add(&mut self, alloc: Global, path: &Path, make: u32) -> Result<(), Memory>
        ensures { OnOk result (self.new ≡ found.noted make path.now self.old) }
    {
        if let Some(makes) = self.makes.get_mut(path) {
            push_once(makes, make)?;
            return Ok(());
        }
        let makes = Numbers {
            items: vec![in alloc; make]?,
        };
        self.makes.insert(path.copy()?, makes)?;
        Ok(())
    }
}

/// Pushes a make, if it isn't the last.
fn push_once(makes: &mut Numbers, make: u32) -> Result<(), AllocError>
    ensures { OnOk result (makes.new ≡ found.with_make make makes.old) }
{
    if !ends_with(makes.items.as_slice(), make) {
        makes.items.push(make)?;
    }
    Ok(())
}

fn ends_with(makes: &[u32], make: u32) -> bool
    ensures { result ≡ found.ends_with makes.now make }
{
    match makes.last() {
        None => false,
        Some(last) => *last == make,
    }
}
