//! The labels of a method's code.
ghost use Rattle.std.specs.Prelude.{◌≡◌, [], OnOk, option_map};
ghost use Rattle.class_asm.specs.Layout.{setting_of, first_set};
ghost use Rattle.class_asm.specs.Labelled.{place_in, setting_at};

use indexmap::IndexMap;
use jo_ids::Memory;
use std::alloc::{AllocError, Global};
use std::marker::Model;

/// Where a label is set: the number of its line, and its pc.
#[derive(Clone, Copy)]
pub struct Place {
    pub line: usize,
    pub pc: u16,
}

/// Labels, each where it is first set.
#[derive(Drop)]
pub struct Labels {
    places: IndexMap<Vec<u8>, Place>,
}

impl Model for Labels {
    ghost use Rattle.std.specs.Prelude.{List as Items, map};
    ghost use Rattle.class_asm.specs.Layout.{Setting};
    ghost use Rattle.class_asm.specs.Labelled.{setting_in};

    ghost Value = { Items Setting };

    ghost view = { λ labels. map setting_in labels.places.entries };
}

impl Labels {
    /// No labels.
    pub fn new(alloc: Global) -> Labels
        ensures { result ≡ [] }
    {
        Labels {
            places: IndexMap::new(alloc),
        }
    }

    /// Where the label is set.
    #[tactic(auto, using(crate::proofs::LabelPlaces::found))]
    pub fn find(&self, name: &[u8]) -> Option<Place>
        ensures { result ≡ option_map place_in (setting_of self.now name.now) }
    {
        self.places.get(name).copied()
    }

    /// Adds a label, unless it is there.
    pub fn set(&mut self, alloc: Global, name: &[u8], place: Place) -> Result<(), Memory>
        ensures { OnOk result (self.new ≡ first_set self.old (setting_at name.now place) (setting_of self.old name.now)) }
    {
        if self.find(name).is_some() {
            return Ok(());
        }
        let mut key = Vec::new(alloc);
        key.extend_from_slice(name)?;
        match self.places.insert(key, place) {
            Ok(_) => return Ok(()),
            Err(_) => return Err(AllocError),
        }
    }
}
