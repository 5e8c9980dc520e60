//! The places of declared names, by numbering.
ghost use Rattle.std.specs.Prelude.{◌≡◌, OnOk, OnErr};

use crate::NameKind;
use soqe_number::Mem;
use std::alloc::Global;
use std::marker::Model;

/// For each numbering the places of its names among the declarations, in order.
#[derive(Drop)]
pub struct Places {
    sorts: Vec<u32>,
    funs: Vec<u32>,
    preds: Vec<u32>,
    variables: Vec<u32>,
    bound_preds: Vec<u32>,
    rels: Vec<u32>,
    props: Vec<u32>,
}

impl Model for Places {
    ghost use Rattle.soqe_signature.specs.Places.{PlaceLists};

    ghost Value = { PlaceLists };

    ghost view = { λ p. record { sorts = p.sorts.items; funs = p.funs.items; preds = p.preds.items; variables = p.variables.items; bound_preds = p.bound_preds.items; rels = p.rels.items; props = p.props.items } };
}

impl Places {
    ghost use Rattle.soqe_signature.specs.Places.{list_at, with_place, no_places};

    /// No places. It takes no memory.
    pub fn new(alloc: Global) -> Places
        ensures { result ≡ no_places }
    {
        Places {
            sorts: Vec::new(alloc),
            funs: Vec::new(alloc),
            preds: Vec::new(alloc),
            variables: Vec::new(alloc),
            bound_preds: Vec::new(alloc),
            rels: Vec::new(alloc),
            props: Vec::new(alloc),
        }
    }

    /// The places of one numbering.
    pub fn of(&self, numbering: NameKind) -> &[u32]
        ensures { result.now ≡ list_at self.now numbering }
    {
        match numbering {
            NameKind::Sort => self.sorts.as_slice(),
            NameKind::Fun => self.funs.as_slice(),
            NameKind::Pred => self.preds.as_slice(),
            NameKind::Variable => self.variables.as_slice(),
            NameKind::BoundPred => self.bound_preds.as_slice(),
            NameKind::Rel => self.rels.as_slice(),
            NameKind::Prop => self.props.as_slice(),
        }
    }

    /// Adds a place to one numbering.
    pub fn push(&mut self, numbering: NameKind, place: u32) -> Mem<()>
        ensures ok { OnOk result (self.new ≡ with_place self.old numbering place) }
        ensures err { OnErr result (self.new ≡ self.old) }
    {
        match numbering {
            NameKind::Sort => self.sorts.push(place)?,
            NameKind::Fun => self.funs.push(place)?,
            NameKind::Pred => self.preds.push(place)?,
            NameKind::Variable => self.variables.push(place)?,
            NameKind::BoundPred => self.bound_preds.push(place)?,
            NameKind::Rel => self.rels.push(place)?,
            NameKind::Prop => self.props.push(place)?,
        }
        Ok(())
    }
}
