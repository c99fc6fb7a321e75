//! The actions of peers that ran in threads, each peer by itself.
ghost use Rattle.std.specs.Prelude.{◌≡◌, ◌++◌, [], ◌∷◌, map, OnOk, OnErr};
ghost use Rattle.record_text.specs.OwnParts.{part_of};

use crate::own_trace::OwnTrace;
use ivs_base::NoMemory;
use std::alloc::Global;
use std::marker::Model;

/// The traces of peers, ascending.
#[derive(Debug, Drop)]
pub struct OwnTraces {
    items: Vec<OwnTrace>,
}

impl Model for OwnTraces {
    ghost use Rattle.std.specs.Prelude.{List, map};
    ghost use Rattle.record_text.specs.Parts.{Part};

    ghost Value = { List Part };

    ghost use Rattle.record_text.specs.OwnParts.{part_of};

    ghost view = { λ traces. map part_of traces.items.items };
}

impl OwnTraces {
    /// The empty list.
    pub fn new(alloc: Global) -> Self
        ensures { result ≡ [] }
    {
        OwnTraces {
            items: Vec::new(alloc),
        }
    }

    /// Appends the trace. After NoMemory the list is unchanged and the trace is dropped.
    // claim ok, err with OwnTraces::new, OwnTraces::items: A list has the items that were appended,
    //    in order; a failed call changes nothing.
    pub fn push(&mut self, item: OwnTrace) -> Result<(), NoMemory>
        ensures ok { OnOk result (self.new ≡ self.old ++ part_of item ∷ []) }
        ensures err { OnErr result (self.new ≡ self.old) }
    {
        self.items.push(item)?;
        Ok(())
    }

    /// The whole list.
    pub fn items(&self) -> &[OwnTrace]
        ensures { map part_of result.now ≡ self.now }
    {
        self.items.as_slice()
    }
}
