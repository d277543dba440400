//! What is in memory of a core's disk, as a view over which a change is planned: its nodes are read, and nothing of the
//! disk.
ghost use Rattle.std.specs.Prelude.{◌≡◌, ◌≤◌, Some};
ghost use Rattle.outside_traits.specs.Faults.{count_fault};
ghost use Rattle.core_disk.specs.Stored.{planned_view};

use crate::store::{Store, bad_record};
use disk_trait::Disk;
use merkle_nodes::{Head, Node, Roots};
use node_set::{CoreFault, View};

/// The nodes in memory of a store, whose disk isn't called.
#[derive(Drop)]
pub(crate) struct StoredNodes<'s, D: Disk> {
    store: &'s Store<D>,
    // How many calls of the view answered a fault, the last one, and how many asked for a block.
    answered: u64,
    last: Option<CoreFault>,
    faults: u64,
}

impl<D: Disk> Store<D> {
    /// The nodes in memory.
    pub(crate) fn nodes(&self) -> StoredNodes<'_, D>
        ensures store { result.store.now ≡ self.now }
    {
        StoredNodes {
            store: self,
            answered: 0,
            last: None,
            faults: 0,
        }
    }
}

impl<D: Disk> StoredNodes<'_, D> {
    // Answers a fault, and keeps it.
    fn tell(&mut self, fault: CoreFault) -> CoreFault
        ensures same { result ≡ fault }
        ensures told { self.new ≡ record self.old { answered = count_fault self.old.answered; last = Some fault } }
        ensures more { self.old.answered ≤ count_fault self.old.answered }
    {
        self.answered = self.answered.saturating_add(1);
        self.last = Some(fault);
        fault
    }
}

impl<D: Disk> View for StoredNodes<'_, D> {
    ghost view = { λ nodes. planned_view (D.disk nodes.store.now.disk) nodes.store.now.hand
        nodes.answered nodes.last nodes.faults };

    fn head(&self) -> Head {
        self.store.known().head()
    }

    fn roots(&self) -> &Roots {
        &self.store.known().roots
    }

    fn held(&self, index: u64) -> bool {
        self.store.known().holds(index)
    }

    fn node(&mut self, index: u64) -> Result<Option<Node>, CoreFault> {
        let known = self.store.known();
        if !known.stores(index) {
            return Ok(None);
        }
        match known.fit_node(index) {
            Some(node) => Ok(Some(node)),
            // where the nodes agree each that is to be stored is there
            None => Err(self.tell(bad_record(index))),
        }
    }

    // No plan reads a block, and none is in memory.
    fn block(&mut self, _index: u64, _out: &mut [u8]) -> Result<usize, CoreFault> {
        self.faults = self.faults.saturating_add(1);
        Err(self.tell(CoreFault::StoreFault))
    }
}
