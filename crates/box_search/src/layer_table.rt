//! Layers with their numbers, in the order in which they were found.
ghost use Rattle.std.specs.Prelude.{◌≡◌, [], Some, OnOk, OnErr};
ghost use Rattle.std.specs.BTreeMap.{Updates, IsUnchanged};
ghost use Rattle.box_search.specs.Places.{layer_cmp};

use crate::places::TotalPlaces;
use box_layers::Layer;
use std::alloc::{AllocError, Global};
use std::collections::BTreeMap;
use std::marker::Model;
use sv_list::{Copied, Items};
use trim_search::{StateNumbering, widen};

/// Layers found in constant time by their places in a table, which grows up to the greatest of them; those
/// that have no place in it are found by their order.
#[derive(Drop)]
pub struct LayerTable {
    places: TotalPlaces,
    names: Vec<Layer>,
    table: Items<Option<u32>>,
    others: BTreeMap<Layer, u32>,
}

impl Model for LayerTable {
    ghost use Rattle.std.specs.Prelude.{List};
    ghost use Rattle.box_layers.specs.declared.layer.Layer.{Layer};
    ghost use Rattle.box_search.specs.Places.{IsLayerIndex};

    ghost Value = { List Layer };

    ghost view = { λ a. a.names.items };

    ghost invariant = { λ a. IsLayerIndex a.places.uppers a.places.states a.places.machines a.names.items a.table a.others };
}

impl LayerTable {
    /// No layer.
    pub fn new(alloc: Global, places: TotalPlaces) -> Self
        ensures { result ≡ [] }
    {
        LayerTable {
            places,
            names: Vec::new(alloc),
            table: Items::new(alloc),
            others: BTreeMap::new(alloc),
        }
    }
}

impl StateNumbering<Layer> for LayerTable {
    ghost named = { λ a. a };

    fn names(&self) -> &[Layer] {
        let _table = &self.table;
        self.names.as_slice()
    }

    fn into_names(self) -> Items<Layer> {
        let _table = &self.table;
        let LayerTable {
            places: _,
            names,
            table: _,
            others: _,
        } = self;
        Items::from_vec(names)
    }

    fn find(&self, layer: &Layer) -> Option<u32> {
        let Some(place) = self.places.place(layer) else {
            return self.others.get(layer).copied();
        };
        match self.table.get(place) {
            Some(number) => *number,
            None => None,
        }
    }

    fn add(&mut self, alloc: Global, layer: Layer) -> Result<u32, AllocError> {
        let number = self.names.len() as u32;
        self.names.reserve(1)?;
        let Some(place) = self.places.place(&layer) else {
            insert_copy(alloc, &mut self.others, &layer, number)?;
            self.names.push_reserved(layer);
            return Ok(number);
        };
        widen(&mut self.table, place)?;
        self.table.set(place, Some(number));
        self.names.push_reserved(layer);
        Ok(number)
    }
}

// Gives the layer this number.
fn insert_copy(
    alloc: Global,
    others: &mut BTreeMap<Layer, u32>,
    layer: &Layer,
    number: u32,
) -> Result<(), AllocError>
    ensures ok { OnOk result (Updates layer_cmp others.old others.new layer.now (Some number)) }
    ensures err { OnErr result (IsUnchanged others.old others.new) }
{
    let key = layer.copy(alloc)?;
    others.insert(key, number)?;
    Ok(())
}
