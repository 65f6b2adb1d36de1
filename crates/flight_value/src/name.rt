ghost use Rattle.std.specs.Prelude.{◌≡◌, ◌++◌, ◌∷◌, [], IfOk};
ghost use Rattle.std.specs.Ordering.{nat_cmp, ordering_then};
ghost use Rattle.std.specs.Cmp.Lexicographic.{slice_cmp};

use crate::list::List;
use crate::memory::Memory;
use crate::shared::Shared;
use std::alloc::Global;
use std::cmp::Ordering;

/// The name of a node that rendering made: the address of the body that made it, and how many nodes that
/// body had made before.
#[derive(Drop, PartialEq, Eq, Hash)]
pub struct Name {
    pub render: Shared<List<u32>>,
    pub serial: u32,
}

impl Name {
    /// The order of names: the addresses item by item, a prefix first, then the serials.
    pub fn compare(&self, other: &Name) -> Ordering
        ensures { result ≡ ordering_then (slice_cmp nat_cmp self.now.render other.now.render) (nat_cmp self.now.serial other.now.serial) }
    {
        self.render
            .get()
            .as_slice()
            .cmp(&other.render.get().as_slice())
            .then(self.serial.cmp(&other.serial))
    }

    /// The address at which a server element of this name renders: its own address, with its serial behind.
    pub fn inner(&self, alloc: Global) -> Result<Shared<List<u32>>, Memory>
        ensures { IfOk result (λ address. address ≡ self.now.render ++ self.now.serial ∷ []) }
    {
        let mut items = Vec::from_slice(alloc, self.render.get().as_slice())?;
        items.push(self.serial)?;
        Shared::new(alloc, List::new(items))
    }
}
