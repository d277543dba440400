//! The open files of a core.
ghost use Rattle.std.specs.Prelude.{◌≡◌};
ghost use Rattle.file_disk.specs.Disk.{handle_of};

use disk_trait::Area;

/// One open file for each area.
#[derive(Drop)]
pub struct Handles<H> {
    pub oplog: H,
    pub tree: H,
    pub bits_a: H,
    pub bits_b: H,
    pub blocks: H,
}

impl<H> Handles<H> {
    /// The file of this area.
    pub fn of(&self, area: Area) -> &H
        ensures { result.now ≡ handle_of self.now area }
    {
        match area {
            Area::Oplog => &self.oplog,
            Area::Tree => &self.tree,
            Area::BitsA => &self.bits_a,
            Area::BitsB => &self.bits_b,
            Area::Blocks => &self.blocks,
        }
    }
}
