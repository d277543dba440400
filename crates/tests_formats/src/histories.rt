ghost use Rattle.std.specs.Prelude.{◌≡◌};

use book_trial::{Event, Reply, SharedToy};
use commit_book::{Laid, Named, Pass, PassList, lay, start};
use std::alloc::Global;
use std::marker::Brand;
use std::sync::Wait;
use std::sync::ledger::Ledger;
use std::thread::{Threads, join};

type End = (Reply, u64, (u64, u64));

fn append<N: Named, F: Ledger, R: Wait>(
    rt: &R,
    shared: &SharedToy<N, F>,
    mut pass: Pass<N, F>,
    count: u64,
) -> Pass<N, F> {
    for _ in 0..count {
        let event = Event::Append {
            count: 1,
            root: [1; 32],
        };
        shared.act(rt, &mut pass, event);
    }
    pass
}

fn append_both<N: Named + Send + Sync, F: Ledger + Send + Sync, R: Threads + Wait + Sync>(
    rt: &R,
    shared: &SharedToy<N, F>,
    first: Pass<N, F>,
    second: Pass<N, F>,
) -> (Pass<N, F>, Pass<N, F>) {
    join(
        rt,
        || append(rt, shared, first, 100),
        || append(rt, shared, second, 100),
    )
}

// What a pass that sees nothing hears of behind one entry of another, and what is told behind a hundred by each thread.
fn told_behind_both<N: Named + Send + Sync, F: Ledger + Send + Sync, R: Threads + Wait + Sync>(
    rt: &R,
    shared: SharedToy<N, F>,
    first: Pass<N, F>,
    mut second: Pass<N, F>,
    passes: PassList<N, F>,
) -> (u64, Option<End>) {
    let first = append(rt, &shared, first, 1);
    let early = second.news();
    let (first, second) = append_both(rt, &shared, first, second);
    (early, told_of_the_end(rt, shared, first, second, passes))
}

// What a pass is answered and another hears of, and the length and the number of commits that are told in the end.
fn told_of_the_end<N: Named, F: Ledger, R: Wait>(
    rt: &R,
    shared: SharedToy<N, F>,
    mut first: Pass<N, F>,
    mut second: Pass<N, F>,
    mut passes: PassList<N, F>,
) -> Option<End> {
    let reply = shared.act(rt, &mut first, Event::Look);
    let late = second.news();
    passes.push(first).ok()?;
    passes.push(second).ok()?;
    Some((reply, late, shared.close(passes).ok()?))
}

fn told_of_a_book<N: Named + Send + Sync, F: Ledger + Send + Sync, R: Threads + Wait + Sync>(
    rt: &R,
    alloc: Global,
    laid: Laid,
) -> Option<(u64, Option<End>)>
    requires book { laid.book ≡ N.book }
    requires commits { (laid.commits ≡ N.name) × (laid.passes ≡ N.parts) }
    requires marks { (laid.marks ≡ F.name) × (laid.passes ≡ F.parts) }
    requires start { 0 ≡ N.start.length }
{
    let (book, mut passes) = start::<N, F>(alloc, laid).ok()?;
    let second = passes.pop()?;
    let first = passes.pop()?;
    Some(told_behind_both(rt, SharedToy::start(0, book), first, second, passes))
}

fn told<R: Threads + Wait + Sync>(rt: &R, alloc: Global) -> Option<(u64, Option<End>)> {
    let laid = lay(alloc, 2).ok()?;
    told_of_a_book::<Brand, Brand, R>(rt, alloc, laid)
}

#[test]
fn two_threads_agree(rt: HostRuntime) {
    let reply = Reply::Length { length: 201 };
    assert!(rt; told(&rt, rt.alloc()) == Some((1, Some((reply, 201, (201, 201))))));
}
