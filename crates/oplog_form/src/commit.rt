//! Commits, both ways.
ghost use Rattle.std.specs.Prelude.{◌++◌, ◌≡◌, ◌≤◌};
ghost use Rattle.compact_enc.specs.Written.{Writes};
ghost use Rattle.oplog_form.specs.Form.{Ahead, both_of};
ghost use Rattle.oplog_form.specs.Commits.{kind_of, numbers_spelling, commit_spelling, small_of, pair_of, made, numbers_in, commit_in};
ghost use Rattle.commit_book.specs.declared.commit.Commit.TheVariants.{Append, Truncate, Clear, Fetch, Upgrade, UpgradeFetch, Reorg, ReorgFetch};

use crate::fields::{number_from, write_number, write_pair};
use crate::form::BadForm;
use commit_book::Commit;
use compact_enc::{Decoder, Encoder, Full};

/// The largest number of a commit, and the largest number of a node that a record has.
pub const MAX_NUMBER: u64 = 4_294_967_295;

/// The kind of each commit.
pub const APPEND: u64 = 0;

pub const TRUNCATE: u64 = 1;

pub const CLEAR: u64 = 2;

pub const FETCH: u64 = 3;

pub const UPGRADE: u64 = 4;

pub const UPGRADE_FETCH: u64 = 5;

pub const REORG: u64 = 6;

pub const REORG_FETCH: u64 = 7;

/// A kind that there is, and its numbers.
#[tactic(auto, unfolding(crate::specs::Commits::commit_in))]
pub(crate) fn commit_from(from: &mut Decoder<'_>) -> Result<Commit, BadForm>
    ensures { Ahead from.new result (commit_in from.old) }
{
    let kind = number_from(REORG_FETCH, from)?;
    numbers_from(kind, from)
}

/// The numbers of each kind.
#[tactic(auto, unfolding(crate::specs::Commits::numbers_in))]
fn numbers_from(kind: u64, from: &mut Decoder<'_>) -> Result<Commit, BadForm>
    ensures { Ahead from.new result (numbers_in kind from.old) }
{
    match kind {
        APPEND => append_from(from),
        TRUNCATE => truncate_from(from),
        CLEAR => clear_from(from),
        FETCH => fetch_from(from),
        UPGRADE => upgrade_from(from),
        UPGRADE_FETCH => upgrade_fetch_from(from),
        REORG => reorg_from(from),
        _ => reorg_fetch_from(from),
    }
}

fn append_from(from: &mut Decoder<'_>) -> Result<Commit, BadForm>
    ensures { Ahead from.new result (made Append (small_of from.old)) }
{
    let count = number_from(MAX_NUMBER, from)?;
    Ok(Commit::Append { count })
}

fn truncate_from(from: &mut Decoder<'_>) -> Result<Commit, BadForm>
    ensures { Ahead from.new result (made (λ x. Truncate x.0 x.1) (pair_of from.old)) }
{
    let (to, fork) = pair_from(from)?;
    Ok(Commit::Truncate { to, fork })
}

fn clear_from(from: &mut Decoder<'_>) -> Result<Commit, BadForm>
    ensures { Ahead from.new result (made (λ x. Clear x.0 x.1) (pair_of from.old)) }
{
    let (start, to) = pair_from(from)?;
    Ok(Commit::Clear { from: start, to })
}

fn fetch_from(from: &mut Decoder<'_>) -> Result<Commit, BadForm>
    ensures { Ahead from.new result (made Fetch (small_of from.old)) }
{
    let index = number_from(MAX_NUMBER, from)?;
    Ok(Commit::Fetch { index })
}

fn upgrade_from(from: &mut Decoder<'_>) -> Result<Commit, BadForm>
    ensures { Ahead from.new result (made Upgrade (small_of from.old)) }
{
    let to = number_from(MAX_NUMBER, from)?;
    Ok(Commit::Upgrade { to })
}

fn upgrade_fetch_from(from: &mut Decoder<'_>) -> Result<Commit, BadForm>
    ensures { Ahead from.new result (made (λ x. UpgradeFetch x.0 x.1) (pair_of from.old)) }
{
    let (to, index) = pair_from(from)?;
    Ok(Commit::UpgradeFetch { to, index })
}

#[tactic(auto, unfolding(crate::specs::Form::both_of))]
fn reorg_from(from: &mut Decoder<'_>) -> Result<Commit, BadForm>
    ensures { Ahead from.new result (made (λ x. Reorg x.0 x.1.0 x.1.1)
        (both_of small_of pair_of from.old)) }
{
    let fork = number_from(MAX_NUMBER, from)?;
    let (to, kept) = pair_from(from)?;
    Ok(Commit::Reorg { fork, to, kept })
}

#[tactic(auto, unfolding(crate::specs::Form::both_of))]
fn reorg_fetch_from(from: &mut Decoder<'_>) -> Result<Commit, BadForm>
    ensures { Ahead from.new result (made (λ x. ReorgFetch x.0.0 x.0.1 x.1.0 x.1.1)
        (both_of pair_of pair_of from.old)) }
{
    let (fork, to) = pair_from(from)?;
    let (kept, index) = pair_from(from)?;
    Ok(Commit::ReorgFetch {
        fork,
        to,
        kept,
        index,
    })
}

/// Two numbers.
#[tactic(auto, unfolding(crate::specs::Form::both_of))]
fn pair_from(from: &mut Decoder<'_>) -> Result<(u64, u64), BadForm>
    ensures { Ahead from.new result (pair_of from.old) }
{
    let first = number_from(MAX_NUMBER, from)?;
    let second = number_from(MAX_NUMBER, from)?;
    Ok((first, second))
}

/// Writes the kind and the numbers of a commit.
pub(crate) fn write_commit(commit: &Commit, to: &mut Encoder<'_>) -> Result<(), Full>
    ensures { Writes (commit_spelling commit.now) to.old to.new result }
{
    write_number(kind(commit), to)?;
    write_numbers(commit, to)
}

fn kind(commit: &Commit) -> u64
    ensures { result ≡ kind_of commit.now }
{
    match commit {
        Commit::Append { .. } => APPEND,
        Commit::Truncate { .. } => TRUNCATE,
        Commit::Clear { .. } => CLEAR,
        Commit::Fetch { .. } => FETCH,
        Commit::Upgrade { .. } => UPGRADE,
        Commit::UpgradeFetch { .. } => UPGRADE_FETCH,
        Commit::Reorg { .. } => REORG,
        Commit::ReorgFetch { .. } => REORG_FETCH,
    }
}

/// Writes the numbers of a commit, in the order of its fields.
fn write_numbers(commit: &Commit, out: &mut Encoder<'_>) -> Result<(), Full>
    ensures { Writes (numbers_spelling commit.now) out.old out.new result }
{
    match commit {
        Commit::Append { count } => write_number(*count, out),
        Commit::Truncate { to, fork } => write_pair(*to, *fork, out),
        Commit::Clear { from, to } => write_pair(*from, *to, out),
        Commit::Fetch { index } => write_number(*index, out),
        Commit::Upgrade { to } => write_number(*to, out),
        Commit::UpgradeFetch { to, index } => write_pair(*to, *index, out),
        Commit::Reorg { fork, to, kept } => write_three(*fork, *to, *kept, out),
        Commit::ReorgFetch {
            fork,
            to,
            kept,
            index,
        } => write_four(*fork, *to, *kept, *index, out),
    }
}

fn write_three(fork: u64, to: u64, kept: u64, out: &mut Encoder<'_>) -> Result<(), Full>
    ensures { Writes (numbers_spelling (Reorg fork to kept)) out.old out.new result }
{
    write_number(fork, out)?;
    write_pair(to, kept, out)
}

fn write_four(fork: u64, to: u64, kept: u64, index: u64, out: &mut Encoder<'_>) -> Result<(), Full>
    ensures { Writes (numbers_spelling (ReorgFetch fork to kept index)) out.old out.new result }
{
    write_pair(fork, to, out)?;
    write_pair(kept, index, out)
}
