//! The names of a core's files.
ghost use Rattle.std.specs.Prelude.{◌≡◌};
ghost use Rattle.file_disk.specs.Names.{name_of as name_of_area};

use disk_trait::Area;

/// The name of an area's file.
pub fn name_of(area: Area) -> &'static str
    ensures { result.now ≡ name_of_area area }
{
    match area {
        Area::Oplog => "oplog",
        Area::Tree => "tree",
        Area::BitsA => "bits-a",
        Area::BitsB => "bits-b",
        Area::Blocks => "blocks",
    }
}
