//! Nodes one behind the other, both ways.
ghost use Rattle.std.specs.Prelude.{◌≡◌, ◌≤◌, ◌<◌, ◌++◌, length, IfOk};
ghost use Rattle.std.specs.List.{flat_map};
ghost use Rattle.compact_enc.specs.Written.{Writes};
ghost use Rattle.oplog_form.specs.Form.{Ahead};
ghost use Rattle.oplog_form.specs.Nodes.{root_spelling, record_spelling, roots_spelling, twig_in, nodes_in, roots_in, index_in, record_in};

use crate::commit::MAX_NUMBER;
use crate::fields::{fixed32_from, just_from, number_from, write_fixed, write_number};
use crate::form::BadForm;
use compact_enc::{Decoder, Encoder, Full};
use flat_tree::{MAX_BLOCKS, MAX_CORE_BYTES, MAX_ROOTS, full_roots};
use merkle_nodes::{Node, Roots, Twig};

/// The full roots of so many blocks behind their number.
#[tactic(auto, unfolding(crate::specs::Nodes::roots_in))]
pub(crate) fn roots_from(blocks: u64, from: &mut Decoder<'_>) -> Result<Roots, BadForm>
    requires few { blocks ≤ MAX_BLOCKS }
    ensures { Ahead from.new result (roots_in blocks from.old) }
{
    let numbers = full_roots(blocks);
    just_from(numbers.len() as u64, from)?;
    nodes_from(numbers.as_slice(), from)
}

/// A node for each number, in order.
fn nodes_from(numbers: &[u64], from: &mut Decoder<'_>) -> Result<Roots, BadForm>
    requires { length numbers.now ≤ MAX_ROOTS }
    ensures { Ahead from.new result (nodes_in numbers.now from.old) }
{
    let mut nodes = Roots::new(Node::BLANK);
    for index in numbers {
        match twig_from(from) {
            Ok(twig) => nodes.push(twig.numbered(*index)),
            Err(bad) => return Err(bad),
        }
    }
    Ok(nodes)
}

/// A number of at least `least`, a size and a hash.
#[tactic(auto, unfolding(crate::specs::Nodes::record_in))]
pub(crate) fn record_from(least: u64, from: &mut Decoder<'_>) -> Result<Node, BadForm>
    ensures gives { Ahead from.new result (record_in least from.old) }
    ensures within { IfOk result (λ node. node.index ≤ MAX_NUMBER) }
{
    let index = index_from(least, from)?;
    let twig = twig_from(from)?;
    Ok(twig.numbered(index))
}

/// A number of at least `least`.
#[tactic(auto, unfolding(crate::specs::Nodes::index_in))]
fn index_from(least: u64, from: &mut Decoder<'_>) -> Result<u64, BadForm>
    ensures gives { Ahead from.new result (index_in least from.old) }
    ensures within { IfOk result (λ index. index ≤ MAX_NUMBER) }
{
    let at = from.place();
    let index = number_from(MAX_NUMBER, from)?;
    if index < least {
        return Err(BadForm { at });
    }
    Ok(index)
}

/// A size and a hash.
#[tactic(auto, unfolding(crate::specs::Nodes::twig_in))]
fn twig_from(from: &mut Decoder<'_>) -> Result<Twig, BadForm>
    ensures { Ahead from.new result (twig_in from.old) }
{
    let size = number_from(MAX_CORE_BYTES, from)?;
    let hash = fixed32_from(from)?;
    Ok(Twig { size, hash })
}

/// Writes how many roots there are, and each without its number.
pub(crate) fn write_roots(roots: &[Node], to: &mut Encoder<'_>) -> Result<(), Full>
    ensures { Writes (roots_spelling roots.now) to.old to.new result }
{
    write_number(roots.len() as u64, to)?;
    write_each(roots, to)
}

fn write_each(roots: &[Node], to: &mut Encoder<'_>) -> Result<(), Full>
    ensures { Writes (flat_map root_spelling roots.now) to.old to.new result }
{
    for root in roots {
        if let Err(full) = write_root(root, to) {
            return Err(full);
        }
    }
    Ok(())
}

/// Writes a node's size and hash.
fn write_root(node: &Node, to: &mut Encoder<'_>) -> Result<(), Full>
    ensures { Writes (root_spelling node.now) to.old to.new result }
{
    write_number(node.size, to)?;
    write_fixed(&node.hash, to)
}

/// Writes a node's number, size and hash.
pub(crate) fn write_record(node: &Node, to: &mut Encoder<'_>) -> Result<(), Full>
    ensures { Writes (record_spelling node.now) to.old to.new result }
{
    write_number(node.index, to)?;
    write_root(node, to)
}
