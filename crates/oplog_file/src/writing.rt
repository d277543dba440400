//! A change file is written. Each write is synced before its call answers Ok, so that a stop at any moment leaves the file with or
//! without what was written, and after Ok with it.
ghost use Rattle.std.specs.Prelude.{◌≡◌, ◌+◌, ◌<◌, ◌≤◌, ◌↔◌, ◌⊎◌, ℕ, List, length, take, drop, IsTrue, IfOk, IfErr, OnOk, OnErr};
ghost use Rattle.disk_trait.specs.declared.disk.Area.TheVariants.{Oplog};
ghost use Rattle.disk_trait.specs.Disk.{Keeps, Syncs, Sizes};
ghost use Rattle.node_set.specs.declared.fault.CoreFault.TheVariants.{StoreFault, Memory};
ghost use Rattle.oplog_form.specs.Headers.{HeaderFits, header_spelling};
ghost use Rattle.oplog_file.specs.Frames.{frame_spelling};
ghost use Rattle.oplog_file.specs.Counting.{FindsRoom};
ghost use Rattle.oplog_file.specs.Files.{File};
ghost use Rattle.oplog_file.specs.Writers.{IsBehind, IsInFront, Passes, Stands, new_header, with_entry, OthersRest, AddsEntry, CutsTail, MakesFile};
ghost use Rattle.oplog_file.specs.Storing.{Calls, Stores, Shortens, Remakes, Trims, trimmed_to, entry_frame};

use crate::file::OplogFile;
use crate::frame::seal;
use crate::layout::{ENTRIES_AT, FRAME_HEAD_BYTES, MAX_ENTRIES_BYTES, SLOT_BYTES};
use compact_enc::Encoder;
use disk_trait::{Area, Disk};
use node_set::CoreFault;
use oplog_form::{Header, MAX_ENTRY_BYTES, MAX_HEADER_BYTES, payloads_find_room, put_header};
use std::alloc::Global;

// How many bytes the area has.
fn size_of<D: Disk>(disk: &mut D) -> Result<u64, CoreFault>
    ensures sizes { IsTrue (D.disk disk.old).honest
        → Sizes Oplog (D.disk disk.old) (D.disk disk.new) result }
    ensures calls { Calls 1 (D.disk disk.old) (D.disk disk.new) result }
    ensures store { IfErr result (λ fault. fault ≡ StoreFault) }
{
    match disk.size(Area::Oplog) {
        Ok(size) => Ok(size),
        Err(_) => Err(CoreFault::StoreFault),
    }
}

fn sync<D: Disk>(disk: &mut D) -> Result<(), CoreFault>
    ensures syncs { IsTrue (D.disk disk.old).honest
        → Syncs Oplog (D.disk disk.old) (D.disk disk.new) result }
    ensures calls { Calls 1 (D.disk disk.old) (D.disk disk.new) result }
    ensures store { IfErr result (λ fault. fault ≡ StoreFault) }
{
    match disk.sync(Area::Oplog) {
        Ok(()) => Ok(()),
        Err(_) => Err(CoreFault::StoreFault),
    }
}

// Writes bytes at a place of the area, and syncs them.
fn store<D: Disk>(disk: &mut D, at: u64, bytes: &[u8]) -> Result<(), CoreFault>
    ensures stores { IsTrue (D.disk disk.old).honest
        → Stores at bytes.now (D.disk disk.old) (D.disk disk.new) result }
    ensures calls { Calls 2 (D.disk disk.old) (D.disk disk.new) result }
    ensures store { IfErr result (λ fault. fault ≡ StoreFault) }
{
    match disk.write(Area::Oplog, at, bytes) {
        Ok(()) => sync(disk),
        Err(_) => Err(CoreFault::StoreFault),
    }
}

// Cuts an area of this size where it is longer than `to`, and syncs it.
fn shorten<D: Disk>(disk: &mut D, to: u64, size: u64) -> Result<(), CoreFault>
    requires size { IsTrue (D.disk disk.old).honest → size ≡ length ((D.disk disk.old).reads Oplog) }
    ensures shortens { IsTrue (D.disk disk.old).honest
        → Shortens to (D.disk disk.old) (D.disk disk.new) result }
    ensures calls { Calls 2 (D.disk disk.old) (D.disk disk.new) result }
    ensures store { IfErr result (λ fault. fault ≡ StoreFault) }
{
    if size <= to {
        return sync(disk);
    }
    match disk.cut(Area::Oplog, to) {
        Ok(()) => sync(disk),
        Err(_) => Err(CoreFault::StoreFault),
    }
}

// Empties the area, and once that is synced writes it from its start on.
fn remake<D: Disk>(disk: &mut D, bytes: &[u8]) -> Result<(), CoreFault>
    ensures remakes { IsTrue (D.disk disk.old).honest
        → Remakes bytes.now (D.disk disk.old) (D.disk disk.new) result }
    ensures calls { Calls 5 (D.disk disk.old) (D.disk disk.new) result }
    ensures store { IfErr result (λ fault. fault ≡ StoreFault) }
{
    // An entry from before would count behind the new header, so none may be left when that is written.
    match clear(disk) {
        Ok(()) => store(disk, 0, bytes),
        Err(fault) => Err(fault),
    }
}

fn clear<D: Disk>(disk: &mut D) -> Result<(), CoreFault>
    ensures shortens { IsTrue (D.disk disk.old).honest
        → Shortens 0 (D.disk disk.old) (D.disk disk.new) result }
    ensures calls { Calls 3 (D.disk disk.old) (D.disk disk.new) result }
    ensures store { IfErr result (λ fault. fault ≡ StoreFault) }
{
    match size_of(disk) {
        Ok(size) => shorten(disk, 0, size),
        Err(fault) => Err(fault),
    }
}

// Cuts the area to what is to be kept of it under an epoch with so many bytes of entries.
fn trim<D: Disk>(disk: &mut D, epoch: u64, used: usize) -> Result<(), CoreFault>
    requires { used ≤ MAX_ENTRIES_BYTES }
    ensures trims { IsTrue (D.disk disk.old).honest
        → Trims epoch used (D.disk disk.old) (D.disk disk.new) result }
    ensures calls { Calls 3 (D.disk disk.old) (D.disk disk.new) result }
    ensures store { IfErr result (λ fault. fault ≡ StoreFault) }
{
    match size_of(disk) {
        Ok(size) => shorten(disk, trimmed(epoch, used, size), size),
        Err(fault) => Err(fault),
    }
}

// How many bytes of an area of this size are kept.
fn trimmed(epoch: u64, used: usize, size: u64) -> u64
    requires { used ≤ MAX_ENTRIES_BYTES }
    ensures { result ≡ trimmed_to epoch used size }
{
    // What a torn header left in the second slot goes too: a later gap of zeros might make it whole.
    if epoch % 2 == 0 && size < ENTRIES_AT as u64 {
        return SLOT_BYTES as u64;
    }
    (ENTRIES_AT + used) as u64
}

// Makes the frame of an entry at the front of the room.
fn fill(frame: &mut [u8], epoch: u64, number: u32, entry: &[u8])
    requires within { FRAME_HEAD_BYTES + length entry.now ≤ length frame.old }
    requires few { length entry.now ≤ MAX_ENTRY_BYTES }
    ensures spelled { take (FRAME_HEAD_BYTES + length entry.now) frame.new ≡ frame_spelling (record {
      epoch = epoch;
      number = number;
      payload = entry.now;
    }) }
    ensures payload { take (length entry.now) (drop FRAME_HEAD_BYTES frame.new) ≡ entry.now }
    ensures size { length frame.new ≡ length frame.old }
{
    put_payload(frame, entry);
    seal(frame, epoch, number, entry.len());
}

fn put_payload(frame: &mut [u8], payload: &[u8])
    requires { FRAME_HEAD_BYTES + length payload.now ≤ length frame.old }
    ensures payload { take (length payload.now) (drop FRAME_HEAD_BYTES frame.new) ≡ payload.now }
    ensures size { length frame.new ≡ length frame.old }
{
    frame[FRAME_HEAD_BYTES..FRAME_HEAD_BYTES + payload.len()].copy_from_slice(payload);
}

impl OplogFile {
    /// Whether an entry of so many bytes finds room behind the others.
    pub fn fits(&self, len: usize) -> bool
        ensures { IsTrue result ↔ FindsRoom self.now.used len }
    {
        len <= MAX_ENTRIES_BYTES && self.used + FRAME_HEAD_BYTES <= MAX_ENTRIES_BYTES - len
    }

    /// Writes an entry behind the others. Once it has answered Ok, every crash leaves it. After an `Err` the file may have it
    /// or not, and is to be opened anew.
    pub fn append<D: Disk>(&mut self, disk: &mut D, entry: &[u8]) -> Result<(), CoreFault>
        requires some { 0 < length entry.now }
        requires few { length entry.now ≤ MAX_ENTRY_BYTES }
        requires room { FindsRoom self.old.used (length entry.now) }
        ensures ok { OnOk result (Passes (entry_frame self.old entry.now) self.old self.new) }
        ensures behind { (file : File) → IsBehind self.old file
            → OnOk result (IsBehind self.new (with_entry entry.now file)) }
        ensures err { OnErr result (Stands self.old self.new) }
        ensures adds { (file : File) → IsTrue (D.disk disk.old).honest → IsBehind self.old file
            → AddsEntry file entry.now (D.disk disk.old) (D.disk disk.new) result }
        ensures others { IsTrue (D.disk disk.old).honest → OthersRest (D.disk disk.old) (D.disk disk.new) }
        ensures calls { Calls 2 (D.disk disk.old) (D.disk disk.new) result }
        ensures store { IfErr result (λ fault. fault ≡ StoreFault) }
    {
        let end = FRAME_HEAD_BYTES + entry.len();
        fill(&mut self.frame, self.epoch, self.count + 1, entry);
        let stored = store(disk, (ENTRIES_AT + self.used) as u64, &self.frame[..end]);
        if let Err(fault) = stored {
            return Err(fault);
        }
        self.count += 1;
        self.last = self.used;
        self.used += end;
        self.payload_len = entry.len();
        Ok(())
    }

    /// Cuts off what stands behind the last entry that counts, which is for a file all of whose entries were passed. Once it
    /// has answered Ok, every crash leaves the file so.
    pub fn cut_tail<D: Disk>(&self, disk: &mut D) -> Result<(), CoreFault>
        ensures cuts { (file : File) → IsTrue (D.disk disk.old).honest → IsBehind self.now file
            → CutsTail file (D.disk disk.old) (D.disk disk.new) result }
        ensures calls { Calls 3 (D.disk disk.old) (D.disk disk.new) result }
        ensures store { IfErr result (λ fault. fault ≡ StoreFault) }
    {
        trim(disk, self.epoch, self.used)
    }

    /// Makes the area anew with a header of epoch 0 and without entries, and stands in front of the first. After an `Err` the
    /// area has what was there, or a front of it, or the new header or some of it.
    pub fn make_new<D: Disk>(
        alloc: Global,
        disk: &mut D,
        header: &Header,
    ) -> Result<OplogFile, CoreFault>
        requires fits { HeaderFits header.now }
        ensures front { IfOk result (λ file. IsInFront file 0) }
        ensures makes { IsTrue (D.disk disk.old).honest
            → MakesFile (header_spelling header.now) (D.disk disk.old) (D.disk disk.new) result }
        ensures calls { Calls 5 (D.disk disk.old) (D.disk disk.new) result }
        ensures fault { IfErr result (λ fault. (fault ≡ StoreFault) ⊎ (fault ≡ Memory)) }
    {
        let Ok(mut file) = OplogFile::in_front(alloc, 0) else {
            return Err(CoreFault::Memory);
        };
        let end = fill_header(&mut file.frame, header);
        match remake(disk, &file.frame[..end]) {
            Ok(()) => Ok(file),
            Err(fault) => Err(fault),
        }
    }
}

// Makes the frame of a new file's header at the front of the room, and gives its bytes.
fn fill_header(frame: &mut [u8], header: &Header) -> usize
    requires fits { HeaderFits header.now }
    requires room { FRAME_HEAD_BYTES + MAX_HEADER_BYTES ≤ length frame.old }
    ensures within { result ≤ length frame.new }
    ensures spelled { take result frame.new
        ≡ frame_spelling (new_header (header_spelling header.now)) }
    ensures few { length (header_spelling header.now) ≤ MAX_HEADER_BYTES }
    ensures size { length frame.new ≡ length frame.old }
{
    let len = put_payload_of(frame, header);
    seal(frame, 0, 0, len);
    FRAME_HEAD_BYTES + len
}

fn put_payload_of(frame: &mut [u8], header: &Header) -> usize
    requires fits { HeaderFits header.now }
    requires room { FRAME_HEAD_BYTES + MAX_HEADER_BYTES ≤ length frame.old }
    ensures place { result ≡ length (header_spelling header.now) }
    ensures within { result ≤ MAX_HEADER_BYTES }
    ensures payload { take result (drop FRAME_HEAD_BYTES frame.new) ≡ header_spelling header.now }
    ensures size { length frame.new ≡ length frame.old }
{
    payloads_find_room();
    write_header(&mut frame[FRAME_HEAD_BYTES..], header)
}

fn write_header(into: &mut [u8], header: &Header) -> usize
    requires fits { HeaderFits header.now }
    requires room { length (header_spelling header.now) ≤ length into.old }
    ensures place { result ≡ length (header_spelling header.now) }
    ensures payload { take result into.new ≡ header_spelling header.now }
    ensures size { length into.new ≡ length into.old }
{
    let mut to = Encoder::new(into);
    let _ = put_header(header, &mut to);
    to.place()
}
