//! What one command has copied.
ghost use Rattle.std.specs.Prelude.{◌≡◌, OnOk, None, if◌then◌else◌};
ghost use Rattle.std.specs.Option.{option_copied};
ghost use Rattle.std.specs.FinMap as fin;
ghost use Rattle.sh_files.specs.Copying as copying;

use crate::copying::Manner;
use br_path::Memory;
use sh_places::Spot;
use std::alloc::Global;
use std::collections::BTreeMap;
use tree_ops::Label;

/// The files that one command has copied: by the label of each, where its first copy is.
#[derive(Drop)]
pub(crate) struct Copied {
    places: BTreeMap<Label, Spot>,
}

impl Copied {
    /// None yet.
    pub(crate) fn new(alloc: Global) -> Copied
        ensures { copying.places_of result ≡ fin.empty }
    {
        Copied {
            places: BTreeMap::new(alloc),
        }
    }

    /// The first copy of a file.
    fn first(&self, label: Option<Label>) -> Option<&Spot>
        ensures { option_copied result ≡ copying.first_copy (copying.places_of self.now) label }
    {
        match label {
            None => None,
            Some(label) => self.place(&label),
        }
    }

    /// The first copy of a file, if names of one file are to stay together.
    pub(crate) fn known(&self, manner: Manner, label: Option<Label>) -> Option<&Spot>
        ensures { option_copied result ≡ (if manner.links then copying.first_copy (copying.places_of self.now) label else None) }
    {
        if manner.links {
            self.first(label)
        } else {
            None
        }
    }

    fn place(&self, label: &Label) -> Option<&Spot>
        ensures { option_copied result ≡ fin.get (copying.places_of self.now) label.now }
    {
        self.places.get(label)
    }

    /// With the copy of a file.
    pub(crate) fn put(
        &mut self,
        manner: Manner,
        label: Option<Label>,
        place: Spot,
    ) -> Result<(), Memory>
        ensures { OnOk result (copying.places_of self.new ≡ copying.copied_too manner (copying.places_of self.old) label place) }
    {
        match label {
            Some(label) if manner.links => self.add(label, place),
            _ => Ok(()),
        }
    }

    fn add(&mut self, label: Label, place: Spot) -> Result<(), Memory>
        ensures { OnOk result (copying.places_of self.new ≡ fin.insert (copying.places_of self.old) label place) }
    {
        self.places.insert(label, place)?;
        Ok(())
    }
}
