//! Headers.
ghost use Rattle.std.specs.Prelude.{◌≡◌, ◌++◌, ℕ, List, IfOk};
ghost use Rattle.compact_enc.specs.Reading.{Gives};
ghost use Rattle.compact_enc.specs.Input.{Yields};
ghost use Rattle.compact_enc.specs.Spelling.{uint_spelling};
ghost use Rattle.compact_enc.specs.Written.{Puts, SameBuffer, Writes};
ghost use Rattle.oplog_form.specs.declared.header.Header.{Header as HeaderSpelled};
ghost use Rattle.oplog_form.specs.Form.{Ahead};
ghost use Rattle.oplog_form.specs.Heads.{head_spelling};
ghost use Rattle.oplog_form.specs.Nodes.{roots_spelling};
ghost use Rattle.oplog_form.specs.Headers.{HeaderFits, header_spelling, header_in, header_of};

use crate::fields::{fixed32_from, head_from, just_from, write_fixed, write_head, write_number};
use crate::form::BadForm;
use crate::nodes::{roots_from, write_roots};
use compact_enc::{Decoder, Encoder, Full};
use merkle_nodes::{Head, Roots};

/// The version of the form, which each header begins with.
pub const VERSION: u64 = 1;
/// The most bytes that a frame has for a header.
pub const MAX_HEADER_BYTES: usize = 4_064;

/// A core's state in short.
#[derive(Drop)]
pub struct Header {
    /// Which core it is.
    pub id: [u8; 32],
    pub head: Head,
    /// The full roots of the head's length.
    pub roots: Roots,
    /// The hash of the copy of the bits that tell which blocks are held.
    pub bits: [u8; 32],
}

/// Reads a header, which is all of the bytes.
pub fn read_header(bytes: &[u8]) -> Result<Header, BadForm>
    // What is read has a spelling, and is spelled so.
    ensures fits { IfOk result HeaderFits }
    ensures found { IfOk result (λ header. bytes.now ≡ header_spelling header) }
    // What is spelled so is read.
    ensures only { (header : HeaderSpelled) → HeaderFits header
        → bytes.now ≡ header_spelling header → Yields (λ read. read) result header }
    // Which place is bad.
    ensures exact { Gives (λ header. header) result (header_of bytes.now) }
{
    header_whole(bytes)
}

/// Writes a header. `Full` comes exactly where fewer bytes are free than its spelling has, and then what was written
/// stays; what stands behind it isn't said.
pub fn put_header(header: &Header, to: &mut Encoder<'_>) -> Result<(), Full>
    requires fits { HeaderFits header.now }
    ensures puts { Puts (header_spelling header.now) to.old to.new result }
    ensures same { SameBuffer to.old to.new }
{
    let start = to.place();
    if let Err(full) = write_header(header, to) {
        to.back_to(start);
        return Err(full);
    }
    Ok(())
}

#[tactic(auto, unfolding(crate::specs::Headers::header_spelling))]
fn write_header(header: &Header, to: &mut Encoder<'_>) -> Result<(), Full>
    ensures { Writes (header_spelling header.now) to.old to.new result }
{
    write_number(VERSION, to)?;
    write_fixed(&header.id, to)?;
    write_rest(header, to)
}

/// Writes what is behind the id.
fn write_rest(header: &Header, to: &mut Encoder<'_>) -> Result<(), Full>
    ensures { Writes (head_spelling header.now.head
        ++ (roots_spelling header.now.roots ++ header.now.bits)) to.old to.new result }
{
    write_head(&header.head, to)?;
    write_roots(header.roots.as_slice(), to)?;
    write_fixed(&header.bits, to)
}

fn header_whole(bytes: &[u8]) -> Result<Header, BadForm>
    ensures { Gives (λ header. header) result (header_of bytes.now) }
{
    let mut from = Decoder::new(bytes);
    let header = header_from(&mut from)?;
    if from.rest() > 0 {
        return Err(BadForm { at: from.place() });
    }
    Ok(header)
}

#[tactic(auto, unfolding(crate::specs::Headers::header_in))]
fn header_from(from: &mut Decoder<'_>) -> Result<Header, BadForm>
    ensures { Ahead from.new result (header_in from.old) }
{
    just_from(VERSION, from)?;
    let id = fixed32_from(from)?;
    let head = head_from(from)?;
    let roots = roots_from(head.length, from)?;
    let bits = fixed32_from(from)?;
    Ok(Header {
        id,
        head,
        roots,
        bits,
    })
}
