//! The nodes of an entry, on hand or still spelled.
ghost use Rattle.std.specs.Prelude.{◌≡◌, ◌≤◌, ◌<◌, ◌^◌, ◌++◌, ℕ, List, length, Ok, IsOk};
ghost use Rattle.std.specs.List.{flat_map};
ghost use Rattle.merkle_nodes.specs.declared.node.Node.{Node as NodeSeen};
ghost use Rattle.compact_enc.specs.Written.{Writes};
ghost use Rattle.oplog_form.specs.Form.{Ahead, past};
ghost use Rattle.oplog_form.specs.Nodes.{record_spelling, records_spelling, rising_in, records_in};
ghost use Rattle.oplog_form.specs.Records.{nodes_or_none, first_of};

use crate::fields::{number_from, write_number};
use crate::form::BadForm;
use crate::nodes::{record_from, write_record};
use compact_enc::{Decoder, Encoder, Full};
use merkle_nodes::Node;
use std::marker::Model;

/// Nodes one behind the other: those of a slice, or those that an entry's bytes have.
#[derive(Drop)]
pub struct Records<'e> {
    nodes: NodeList<'e>,
}

#[derive(Drop)]
enum NodeList<'e> {
    /// Nodes on hand.
    OnHand(&'e [Node]),
    /// So many nodes, whose numbers rise from `least` on.
    Spelled {
        count: u64,
        least: u64,
        from: Decoder<'e>,
    },
}

impl<'e> Model for Records<'e> {
    ghost use Rattle.std.specs.Prelude.{List};
    ghost use Rattle.merkle_nodes.specs.declared.node.Node.{Node as NodeSeen};
    ghost use Rattle.oplog_form.specs.Records.{nodes_of, AreThere};

    ghost Value = { List NodeSeen };

    ghost view = { λ r. nodes_of r.nodes };

    ghost invariant = { λ r. AreThere r.nodes };
}

impl<'e> Records<'e> {
    /// The nodes of a slice.
    pub fn of(nodes: &'e [Node]) -> Records<'e>
        ensures { result ≡ nodes.now }
    {
        Records {
            nodes: NodeList::OnHand(nodes),
        }
    }

    /// How many nodes there are.
    pub fn len(&self) -> usize
        ensures { result ≡ length self.now }
    {
        match &self.nodes {
            NodeList::OnHand(nodes) => nodes.len(),
            NodeList::Spelled { count, .. } => *count as usize,
        }
    }

    /// The first node and those behind it, or `None` exactly where there is none.
    pub fn first(&self) -> Option<(Node, Records<'e>)>
        ensures { result ≡ first_of self.now }
    {
        match &self.nodes {
            NodeList::OnHand(nodes) => first_on_hand(nodes),
            NodeList::Spelled { count, least, from } => first_spelled(*count, *least, from),
        }
    }

    /// The same nodes again.
    pub(crate) fn copy(&self) -> Records<'e>
        ensures { result ≡ self.now }
    {
        match &self.nodes {
            NodeList::OnHand(nodes) => Records::of(nodes),
            NodeList::Spelled { count, least, from } => spelled(*count, *least, from.copy()),
        }
    }
}

fn first_on_hand(nodes: &[Node]) -> Option<(Node, Records<'_>)>
    ensures { result ≡ first_of nodes.now }
{
    let [node, rest @ ..] = nodes else {
        return None;
    };
    Some((*node, Records::of(rest)))
}

fn first_spelled<'e>(count: u64, least: u64, from: &Decoder<'e>) -> Option<(Node, Records<'e>)>
    requires there { IsOk (rising_in count least from.now) }
    ensures { result ≡ first_of (nodes_or_none (rising_in count least from.now)) }
{
    if count == 0 {
        return None;
    }
    let mut ahead = from.copy();
    match record_from(least, &mut ahead) {
        Ok(node) => Some((node, spelled(count - 1, node.index + 1, ahead))),
        // Each node was looked at before, so this one is there.
        Err(_) => None,
    }
}

/// So many nodes, which are spelled in front of what is left.
fn spelled<'e>(count: u64, least: u64, from: Decoder<'e>) -> Records<'e>
    requires there { IsOk (rising_in count least from) }
    ensures { result ≡ nodes_or_none (rising_in count least from.entry) }
{
    Records {
        nodes: NodeList::Spelled { count, least, from },
    }
}

/// Records behind their number, none of which is kept but where they begin.
#[tactic(auto, unfolding(crate::specs::Nodes::records_in))]
pub(crate) fn records_from<'e>(from: &mut Decoder<'e>) -> Result<Records<'e>, BadForm>
    ensures { Ahead from.new result (records_in from.old) }
{
    let count = number_from(u64::MAX, from)?;
    rising_from(count, from)
}

/// So many records.
fn rising_from<'e>(count: u64, from: &mut Decoder<'e>) -> Result<Records<'e>, BadForm>
    ensures { Ahead from.new result (rising_in count 0 from.old) }
{
    let first = from.copy();
    if let Err(bad) = pass_records(count, from) {
        return Err(bad);
    }
    Ok(spelled(count, 0, first))
}

/// Goes past so many records.
fn pass_records(count: u64, from: &mut Decoder<'_>) -> Result<(), BadForm>
    ensures { Ahead from.new result (past (rising_in count 0 from.old)) }
{
    let mut least = 0;
    for _ in 0..count {
        match record_from(least, from) {
            Ok(node) => least = node.index + 1,
            Err(bad) => return Err(bad),
        }
    }
    Ok(())
}

/// Writes how many records there are, and each.
pub(crate) fn write_records(records: &Records<'_>, to: &mut Encoder<'_>) -> Result<(), Full>
    ensures { Writes (records_spelling records.now) to.old to.new result }
{
    write_number(records.len() as u64, to)?;
    write_each(records.copy(), to)
}

fn write_each(records: Records<'_>, to: &mut Encoder<'_>) -> Result<(), Full>
    ensures { Writes (flat_map record_spelling records.entry) to.old to.new result }
{
    let mut left = records;
    for _ in 0..left.len() {
        let Some((node, rest)) = left.first() else {
            return Ok(());
        };
        if let Err(full) = write_record(&node, to) {
            return Err(full);
        }
        left = rest;
    }
    Ok(())
}
