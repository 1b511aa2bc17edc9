use crate::pieces::{Layer, find_layer, join};
use std::alloc::{AllocError, Global};
use std::rc::Rc;
use sv_list::Items;

/// Fewer bytes share nothing, since a thousand such lists take 64 MB, and pieces take time to find.
const FEW: usize = 1 << 16;

/// The most layers over one base. Each is joined again where the bytes are wanted.
const MOST_LAYERS: usize = 32;

/// A layer that several lists of bytes may have.
#[derive(Drop)]
pub(crate) struct SharedLayer {
    layer: Rc<Layer>,
}

/// Bytes that may share those of others: a base, and layers over it, each of which makes other bytes of those below.
#[derive(Drop)]
pub(crate) struct SharedBytes {
    base: Rc<Items<u8>>,
    layers: Items<SharedLayer>,
}

impl SharedBytes {
    ghost use Rattle.std.specs.Prelude.{◌≡◌, IfOk, IfSome};
    ghost use Rattle.lia_pack.specs.Shares.{bytes_of, joined_by, values};

    /// The bytes, as a layer over others where they are many and that takes little memory.
    pub fn of(
        alloc: Global,
        bytes: Items<u8>,
        others: Option<&SharedBytes>,
    ) -> Result<SharedBytes, AllocError>
        ensures { IfOk result (λ s. bytes_of s ≡ bytes) }
    {
        if bytes.len() >= FEW {
            if let Some(others) = others {
                if let Some(shared) = others.share(alloc, bytes.as_slice())? {
                    return Ok(shared);
                }
            }
        }
        SharedBytes::keep(alloc, bytes)
    }

    /// The bytes as a base of their own, with no room behind them.
    fn keep(alloc: Global, bytes: Items<u8>) -> Result<SharedBytes, AllocError>
        ensures { IfOk result (λ s. bytes_of s ≡ bytes) }
    {
        match Rc::new(alloc, Items::from_slice(alloc, bytes.as_slice())?) {
            Ok(base) => Ok(SharedBytes {
                base,
                layers: Items::new(alloc),
            }),
            Err(_) => Err(AllocError),
        }
    }

    /// The bytes as one layer more over these, where that takes little memory.
    fn share(&self, alloc: Global, bytes: &[u8]) -> Result<Option<SharedBytes>, AllocError>
        ensures { IfOk result (λ o. IfSome o (λ s. bytes_of s ≡ bytes.now)) }
    {
        if self.layers.len() >= MOST_LAYERS {
            return Ok(None);
        }
        let below = self.to_items(alloc)?;
        let Some(layer) = find_layer(alloc, below.as_slice(), bytes)? else {
            return Ok(None);
        };
        let whole = join(alloc, below.as_slice(), &layer)?;
        if whole.as_slice() != bytes {
            return Ok(None);
        }
        Ok(Some(self.add(alloc, layer)?))
    }

    /// The same bytes with a layer more over them.
    #[tactic(auto, using(crate::proofs::Layers::values_app, crate::proofs::Layers::layered_app))]
    fn add(&self, alloc: Global, layer: Layer) -> Result<SharedBytes, AllocError>
        ensures { IfOk result (λ s. bytes_of s ≡ joined_by (bytes_of self.now) layer) }
    {
        let mut layers = self.copy_layers(alloc)?;
        match Rc::new(alloc, layer) {
            Ok(layer) => layers.push(SharedLayer { layer })?,
            Err(_) => return Err(AllocError),
        }
        Ok(SharedBytes {
            base: self.base.clone()?,
            layers,
        })
    }

    /// The layers, shared.
    fn copy_layers(&self, alloc: Global) -> Result<Items<SharedLayer>, AllocError>
        ensures { IfOk result (λ layers. values layers ≡ values self.now.layers) }
    {
        let mut layers = Items::new(alloc);
        for layer in self.layers.as_slice() {
            let layer = layer.layer.clone()?;
            layers.push(SharedLayer { layer })?;
        }
        Ok(layers)
    }

    /// The bytes in one list. Linear in them, times the number of layers.
    pub fn to_items(&self, alloc: Global) -> Result<Items<u8>, AllocError>
        ensures { IfOk result (λ bytes. bytes ≡ bytes_of self.now) }
    {
        let mut bytes = Items::from_slice(alloc, self.base.as_slice())?;
        for layer in self.layers.as_slice() {
            bytes = join(alloc, bytes.as_slice(), &layer.layer)?;
        }
        Ok(bytes)
    }
}
