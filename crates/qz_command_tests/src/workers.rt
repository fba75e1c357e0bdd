//! What several workers generate is what one does.
use qz_crew::{Open, Turnstile};
use qz_io::{MemSink, SureShelf, SureSink, SureSource};
use qz_samples::{two_gates, words_of};
use qz_top::{Status, run};
use std::alloc::{AllocError, Global};
use std::process::Abort;
use std::sync::Wait;
use std::test::Fail;
use std::thread::Threads;

// Hides the clauses of what is tested: a test that knows less is proved sooner.
fn answer<T: Turnstile, R: Threads + Wait + Sync>(
    rt: &R,
    alloc: Global,
    words: &[String],
    out: &mut MemSink,
    stile: &T,
) -> Status {
    let mut input = SureSource::new(Vec::new(alloc));
    let mut shelf = SureShelf::new(Vec::new(alloc));
    let mut err = SureSink::new(alloc);
    run(
        rt, alloc, words, &mut input, &mut shelf, out, &mut err, stile,
    )
}

fn text(out: &MemSink) -> &[u8] {
    out.written()
}

// What the words of this text write, and how they end.
pub(super) fn written<T: Turnstile, R: Threads + Wait + Sync>(
    rt: &R,
    alloc: Global,
    words: &str,
    stile: &T,
) -> Result<(Status, MemSink), AllocError> {
    let words = words_of(alloc, words)?;
    let mut out = MemSink::new(alloc, Vec::new(alloc));
    let status = answer(rt, alloc, &words, &mut out, stile);
    Ok((status, out))
}

// Whether the words end well and write this text.
pub(super) fn is_written<T: Turnstile, R: Threads + Wait + Sync>(
    rt: &R,
    alloc: Global,
    words: &str,
    wanted: &[u8],
    stile: &T,
) -> bool {
    match written(rt, alloc, words, stile) {
        Ok((status, out)) => status == Status::Ok && text(&out) == wanted,
        Err(_) => false,
    }
}

// The words of each row write what those of the first do, which begins with this text.
fn write_the_same<R: Threads + Wait + Sync + Abort>(
    rt: &R,
    alloc: Global,
    rows: &[&str],
    head: &str,
) -> Result<(), AllocError> {
    let Some(first) = rows.first() else {
        return Ok(());
    };
    let (status, out) = written(rt, alloc, first, &Open)?;
    assert!(rt; status == Status::Ok && text(&out).starts_with(head.as_bytes()));
    for words in rows {
        assert!(rt;
            is_written(rt, alloc, words, text(&out), &Open),
            "at {words}"
        );
    }
    Ok(())
}

#[test]
fn workers_and_seeds_change_nothing(rt: HostRuntime) -> Result<(), Fail> {
    let by_workers = [
        "generate 3 2 0",
        "generate 3 2 0 --workers 1",
        "generate 3 2 0 --workers 2",
        "generate 3 2 0 --workers 3",
        "generate 3 2 0 --workers 16",
    ];
    write_the_same(
        &rt,
        rt.alloc(),
        &by_workers,
        "quartz-rules 1\nbounds 3 2 0\nclasses ",
    )?;
    let by_seeds = [
        "generate 2 1 1",
        "generate 2 1 1 --seed 1",
        "generate 2 1 1 --seed 2",
        "generate 2 1 1 --seed 2 --workers 2",
        "generate 2 1 1 --workers 16 --seed 1",
    ];
    write_the_same(
        &rt,
        rt.alloc(),
        &by_seeds,
        "quartz-rules 1\nbounds 2 1 1\nclasses 33\n",
    )?;
    Ok(())
}

// Nine candidates for sixteen workers, and none.
#[test]
fn there_may_be_more_workers_than_candidates(rt: HostRuntime) {
    let rows = [
        ("generate 2 1 0 --workers 3", two_gates()),
        (
            "generate 1 1 0 --workers 16",
            "quartz-rules 1\nbounds 1 1 0\nclasses 0\nend\n",
        ),
        (
            "generate 0 1 0 --workers 16",
            "quartz-rules 1\nbounds 0 1 0\nclasses 0\nend\n",
        ),
    ];
    for (words, wanted) in rows {
        assert!(rt;
            is_written(&rt, rt.alloc(), words, wanted.as_bytes(), &Open),
            "at {words}"
        );
    }
}
