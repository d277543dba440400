//! Twigs one behind the other, both ways.
ghost use Rattle.std.specs.Prelude.{◌≡◌, ◌≤◌, ◌<◌, ◌++◌, length};
ghost use Rattle.std.specs.List.{flat_map};
ghost use Rattle.compact_enc.specs.Written.{Writes};
ghost use Rattle.flat_tree.specs.Covers.{cover_of};
ghost use Rattle.proof_form.specs.Form.{Ahead};
ghost use Rattle.proof_form.specs.Twigs.{twig_spelling, twigs_spelling, twig_in, twigs_in, trail_in, cover_in};

use crate::fields::{MAX_NUMBER, fixed32_from, number_from};
use crate::form::{Bad, BadForm};
use compact_enc::{Decoder, Encoder, Full};
use flat_tree::{MAX_CORE_BYTES, MAX_SIBLINGS, MAX_UPGRADE_NODES, RoomList, cover};
use merkle_nodes::{Trail, Twig, Twigs};

/// The siblings of a path behind their number.
#[tactic(auto, unfolding(crate::specs::Twigs::trail_in))]
pub(crate) fn trail_from(from: &mut Decoder<'_>) -> Result<Trail, BadForm>
    ensures { Ahead (λ trail. trail) from.new result (trail_in from.old) }
{
    let count = number_from(MAX_SIBLINGS as u64, from)?;
    twigs_from(count, from)
}

/// The twigs of the cover of the blocks from a start to an end, behind their number.
#[tactic(auto, unfolding(crate::specs::Twigs::cover_in))]
pub(crate) fn cover_from(start: u64, end: u64, from: &mut Decoder<'_>) -> Result<Twigs, BadForm>
    requires ordered { start < end }
    requires within { end ≤ MAX_NUMBER }
    ensures { Ahead (λ twigs. twigs) from.new result (cover_in start end from.old) }
{
    let at = from.place();
    let count = number_from(MAX_UPGRADE_NODES as u64, from)?;
    if count != cover_nodes(start, end) {
        return Err(BadForm {
            at,
            why: Bad::Count,
        });
    }
    twigs_from(count, from)
}

/// How many nodes the cover of the blocks from a start to an end has.
fn cover_nodes(start: u64, end: u64) -> u64
    requires ordered { start < end }
    requires within { end ≤ MAX_NUMBER }
    ensures { result ≡ length (cover_of start end) }
{
    cover(start, end).len() as u64
}

/// So many twigs.
fn twigs_from<const N: usize>(
    count: u64,
    from: &mut Decoder<'_>,
) -> Result<RoomList<Twig, N>, BadForm>
    requires { count ≤ N }
    ensures { Ahead (λ twigs. twigs) from.new result (twigs_in count from.old) }
{
    let mut twigs = RoomList::new(Twig::BLANK);
    for _ in 0..count {
        match twig_from(from) {
            Ok(twig) => twigs.push(twig),
            Err(bad) => return Err(bad),
        }
    }
    Ok(twigs)
}

/// A size and a hash.
#[tactic(auto, unfolding(crate::specs::Twigs::twig_in))]
pub(crate) fn twig_from(from: &mut Decoder<'_>) -> Result<Twig, BadForm>
    ensures { Ahead (λ twig. twig) from.new result (twig_in from.old) }
{
    let size = number_from(MAX_CORE_BYTES, from)?;
    let hash = fixed32_from(from)?;
    Ok(Twig { size, hash })
}

/// Writes how many twigs there are, and each.
pub(crate) fn write_twigs(twigs: &[Twig], to: &mut Encoder<'_>) -> Result<(), Full>
    ensures { Writes (twigs_spelling twigs.now) to.old to.new result }
{
    to.put_uint(twigs.len() as u64)?;
    write_each(twigs, to)
}

fn write_each(twigs: &[Twig], to: &mut Encoder<'_>) -> Result<(), Full>
    ensures { Writes (flat_map twig_spelling twigs.now) to.old to.new result }
{
    for twig in twigs {
        if let Err(full) = write_twig(twig, to) {
            return Err(full);
        }
    }
    Ok(())
}

/// Writes a size and a hash.
pub(crate) fn write_twig(twig: &Twig, to: &mut Encoder<'_>) -> Result<(), Full>
    ensures { Writes (twig_spelling twig.now) to.old to.new result }
{
    to.put_uint(twig.size)?;
    to.put_fixed(&twig.hash)
}
