//! The bytes of the five areas in memory.
ghost use Rattle.std.specs.Prelude.{◌≡◌, ◌≤◌, ◌<◌, ◌+◌, ◌^◌, [], length, take, OnOk, OnErr, IfOk, IsOk, vec_capacity};
ghost use Rattle.disk_trait.specs.Disk.{overlay};
ghost use Rattle.disk_trait.specs.Contents.{content_of, with_content, empty, filled, pasted};

use crate::disk::Area;
use std::alloc::{AllocError, Global};
use std::marker::Model;

/// The bytes of each area, which contracts see as five lists and the room for each of them.
#[derive(Drop)]
pub struct Files {
    oplog: Vec<u8>,
    tree: Vec<u8>,
    bits_a: Vec<u8>,
    bits_b: Vec<u8>,
    blocks: Vec<u8>,
    room: usize,
}

impl Model for Files {
    ghost use Rattle.disk_trait.specs.Contents.{FilesView, HasRoom};

    ghost Value = { FilesView };

    ghost view = { λ files. record {
      all = record {
        oplog = files.oplog.items;
        tree = files.tree.items;
        bits_a = files.bits_a.items;
        bits_b = files.bits_b.items;
        blocks = files.blocks.items;
      };
      room = files.room;
    } };

    ghost invariant = { λ files. HasRoom files.room files.oplog files.tree files.bits_a files.bits_b files.blocks };
}

impl Files {
    /// Five empty areas, with room for so many bytes in each.
    pub fn new(alloc: Global, room: usize) -> Result<Files, AllocError>
        ensures { IfOk result (λ files. files ≡ record { all = empty; room = room }) }
    {
        let oplog = Vec::with_capacity(alloc, room)?;
        let tree = Vec::with_capacity(alloc, room)?;
        let bits_a = Vec::with_capacity(alloc, room)?;
        let bits_b = Vec::with_capacity(alloc, room)?;
        let blocks = Vec::with_capacity(alloc, room)?;
        Ok(Files {
            oplog,
            tree,
            bits_a,
            bits_b,
            blocks,
            room,
        })
    }

    pub fn of(&self, area: Area) -> &[u8]
        ensures { result.now ≡ content_of self.now.all area }
    {
        match area {
            Area::Oplog => &self.oplog,
            Area::Tree => &self.tree,
            Area::BitsA => &self.bits_a,
            Area::BitsB => &self.bits_b,
            Area::Blocks => &self.blocks,
        }
    }

    /// Writes over what an area has and past its end. An `Err` changes nothing.
    pub fn overlay(&mut self, area: Area, at: usize, bytes: &[u8]) -> Result<(), AllocError>
        requires { at + length bytes.now < 2 ^ 64 }
        ensures ok { OnOk result (self.new
            ≡ record self.old { all = with_content area (overlay at bytes.now (content_of self.old.all area)) self.old.all }) }
        ensures err { OnErr result (self.new ≡ self.old) }
        ensures fits { at + length bytes.now ≤ self.old.room → IsOk result }
    {
        match area {
            Area::Oplog => overlay_file(&mut self.oplog, at, bytes),
            Area::Tree => overlay_file(&mut self.tree, at, bytes),
            Area::BitsA => overlay_file(&mut self.bits_a, at, bytes),
            Area::BitsB => overlay_file(&mut self.bits_b, at, bytes),
            Area::Blocks => overlay_file(&mut self.blocks, at, bytes),
        }
    }

    /// Cuts an area to a length.
    pub fn cut(&mut self, area: Area, to: usize)
        ensures { self.new
            ≡ record self.old { all = with_content area (take to (content_of self.old.all area)) self.old.all } }
    {
        match area {
            Area::Oplog => self.oplog.truncate(to),
            Area::Tree => self.tree.truncate(to),
            Area::BitsA => self.bits_a.truncate(to),
            Area::BitsB => self.bits_b.truncate(to),
            Area::Blocks => self.blocks.truncate(to),
        }
    }

    /// A copy, with room for so many bytes in each area.
    pub fn copy(&self, alloc: Global, room: usize) -> Result<Files, AllocError>
        ensures { IfOk result (λ files. files ≡ record { all = self.now.all; room = room }) }
    {
        let mut files = Files::new(alloc, room)?;
        files.oplog.extend_from_slice(&self.oplog)?;
        files.tree.extend_from_slice(&self.tree)?;
        files.bits_a.extend_from_slice(&self.bits_a)?;
        files.bits_b.extend_from_slice(&self.bits_b)?;
        files.blocks.extend_from_slice(&self.blocks)?;
        Ok(files)
    }
}

// No bytes change nothing: a gap is filled up only for bytes that stand behind it.
#[tactic(auto, using(crate::proofs::Overlays::written_file))]
fn overlay_file(file: &mut Vec<u8>, at: usize, bytes: &[u8]) -> Result<(), AllocError>
    requires { at + length bytes.now < 2 ^ 64 }
    ensures ok { OnOk result (file.new.items ≡ overlay at bytes.now file.old.items) }
    ensures err { OnErr result (file.new.items ≡ file.old.items) }
    ensures fits { at + length bytes.now ≤ vec_capacity file.old → IsOk result }
    ensures capacity { vec_capacity file.old ≤ vec_capacity file.new }
{
    if bytes.is_empty() {
        return Ok(());
    }
    fill_up(file, at + bytes.len())?;
    paste(file, at, bytes);
    Ok(())
}

fn fill_up(file: &mut Vec<u8>, end: usize) -> Result<(), AllocError>
    ensures ok { OnOk result (file.new.items ≡ filled end file.old.items) }
    ensures err { OnErr result (file.new.items ≡ file.old.items) }
    ensures fits { end ≤ vec_capacity file.old → IsOk result }
    ensures capacity { vec_capacity file.old ≤ vec_capacity file.new }
{
    if end <= file.len() {
        return Ok(());
    }
    file.resize(end, 0)
}

fn paste(file: &mut Vec<u8>, at: usize, bytes: &[u8])
    requires { at + length bytes.now ≤ length file.old.items }
    ensures items { file.new.items ≡ pasted at bytes.now file.old.items }
    ensures capacity { vec_capacity file.new ≡ vec_capacity file.old }
{
    file[at..at + bytes.len()].copy_from_slice(bytes);
}
