//! The trait of logs: views to which changes are applied, in memory or on a disk.
ghost use Rattle.std.specs.Prelude.{◌≡◌, Bool, IsTrue, true};
ghost use Rattle.bit_field.specs.Pages.{page_of};
ghost use Rattle.bit_field.specs.Places.{count_below};
ghost use Rattle.merkle_nodes.specs.Roots.{root_hash_of};
ghost use Rattle.node_set.specs.Contents.{held, roots};
ghost use Rattle.node_set.specs.Whole.{IsSound, KeepsLimits};
ghost use Rattle.log_view.specs.Views.{IsUsable};
ghost use Rattle.log_core.specs.Logs.{blocks_of, Fits, Leads, Applies, IsOfStore};
ghost use Rattle.node_set.specs.declared.fault.CoreFault.{CoreFault as CoreFaultSeen};

use bit_field::PAGE_BYTES;
use log_change::LogChange;
use log_view::View;
use merkle_nodes::Node;
use node_set::CoreFault;
use outside_traits::Blobs;
use std::alloc::Global;

/// The bytes of the blocks that come in with a change.
#[derive(Clone, Copy)]
pub enum Blocks<'a> {
    NoBlock,
    One(&'a [u8]),
    Many(&'a Blobs),
}

/// A view to which changes are applied, each as one commit.
pub trait Log: View {
    /// Whether a change may answer `Memory`.
    ghost TAKES_MEMORY: { Bool };

    /// Whether a change may answer `Limit` (`Oplog`), where the area of its commits is full.
    ghost FILLS: { Bool };

    const TAKES_MEMORY: bool;

    const FILLS: bool;

    /// How often the store failed.
    fn faults(&self) -> u64
        ensures { result ≡ (Self.view self.now).faults };

    /// The hash of the roots.
    fn root_hash(&self) -> [u8; 32]
        ensures { result ≡ root_hash_of (roots (Self.view self.now).source.content) };

    /// How many blocks are held.
    fn held_count(&self) -> u64
        ensures { let m = (Self.view self.now).source.content in
            result ≡ count_below (held m) m.length };

    /// Which blocks of a page are held (`bit_field::Bits::page`); none past the length.
    fn page(&self, number: u64, out: &mut [u8; PAGE_BYTES])
        ensures { out.new ≡ page_of (held (Self.view self.now).source.content) number };

    /// Applies a change that is committed: its head with its roots, whose hash is `root`, the blocks that come in, and the
    /// nodes that have to be written, in whatever order. `Memory` or `Limit` (`Oplog`) before anything is written,
    /// `StoreFault` where the store failed: the log is then to be read no more.
    fn apply(
        &mut self,
        alloc: Global,
        change: &LogChange,
        root: &[u8; 32],
        come: &Blocks<'_>,
        fresh: &[Node],
    ) -> Result<(), CoreFault>
        requires fits { let m = (Self.view self.old).source.content in IsUsable m
            → Fits m change.now root.now (blocks_of come.now) }
        requires leads { let s = (Self.view self.old).source in IsTrue s.shows
            → IsSound s.content → KeepsLimits s.content
            → Leads s.content change.now (blocks_of come.now) fresh.now }
        ensures { Applies Self.TAKES_MEMORY Self.FILLS (Self.view self.old) (Self.view self.new)
            change.now (blocks_of come.now) fresh.now result };

    /// It reports nothing but faults of its store, and what is damaged there.
    ghost reports_store: { (log : Self) → (fault : CoreFaultSeen)
        → (Self.view log).source.reports fault ≡ true → IsOfStore fault };
}
