//! Segments of one region that all schedulers take.
ghost use Rattle.std.specs.Prelude.{◌≡◌, ◌≤◌, ◌*◌, IfOk, All, length, sum_by};
ghost use Rattle.ea_segments.specs.Requests.{IsRequest};

use ea_model::{List, OutOfMemory};
use ea_segments::{Reply, Request, play};
use std::alloc::Global;
use std::sync::Wait;
use std::test::Fail;
use std::thread::Threads;

/// A section that takes and gives back in turns.
fn section_of(alloc: Global, first: u32, rounds: u32) -> Result<List<Request>, OutOfMemory>
    requires { (first ≤ 100000) × (rounds ≤ 2000) }
    ensures { IfOk result (λ s. (length s.items ≡ 2 * rounds) × All IsRequest s.items) }
{
    let mut section = List::new(alloc);
    for round in 0..rounds {
        let name = first + round;
        section.push(Request::Take {
            name,
            pages: 1 + round % 7,
        })?;
        section.push(Request::Back { name })?;
    }
    Ok(section)
}

/// That many such sections.
fn sections_of(alloc: Global, many: u32, rounds: u32) -> Result<Vec<List<Request>>, OutOfMemory>
    requires { (many ≤ 8) × (rounds ≤ 2000) }
    ensures { IfOk result (λ v. (length v.items ≡ many)
        × (sum_by (λ s. length s.items) v.items ≡ many * (2 * rounds))
        × All (λ s. All IsRequest s.items) v.items) }
{
    let mut sections = Vec::new(alloc);
    for before in 0..many {
        sections.push(section_of(alloc, rounds * before + 1, rounds)?)?;
    }
    Ok(sections)
}

/// A section that takes segments of one page.
fn single_pages(alloc: Global, many: u32) -> Result<List<Request>, OutOfMemory>
    requires { many ≤ 2000 }
    ensures { IfOk result (λ s. (length s.items ≡ many) × All IsRequest s.items) }
{
    let mut section = List::new(alloc);
    for name in 0..many {
        section.push(Request::Take { name, pages: 1 })?;
    }
    Ok(section)
}

/// The last reply to one that takes that many segments of one page.
fn last_reply<R: Threads + Wait + Sync>(
    rt: &R,
    alloc: Global,
    pages: u32,
    many: u32,
) -> Result<Option<Reply>, OutOfMemory>
    requires { (1 ≤ pages) × (pages ≤ 2000) × (many ≤ 2000) }
{
    let mut sections = Vec::new(alloc);
    sections.push(single_pages(alloc, many)?)?;
    let book = play(rt, alloc, pages, &sections)?;
    Ok(book.history.as_slice().last().map(|call| call.reply))
}

#[test]
fn each_request_has_its_reply(rt: HostRuntime) -> Result<(), Fail> {
    let alloc = rt.alloc();
    let requests = [
        Request::Take {
            name: 1,
            pages: 100,
        },
        Request::Take {
            name: 2,
            pages: 200,
        },
        Request::Take { name: 1, pages: 50 },
        Request::Back { name: 1 },
        Request::Take { name: 3, pages: 60 },
        Request::Back { name: 1 },
        Request::Back { name: 1 },
        Request::Take {
            name: 4,
            pages: 196,
        },
    ];
    let replies = [
        Reply::At { start: 0 },
        Reply::NoRun,
        Reply::At { start: 100 },
        Reply::Done,
        Reply::At { start: 0 },
        Reply::Done,
        Reply::Skipped,
        Reply::At { start: 60 },
    ];
    let mut section = List::new(alloc);
    section.extend_from_slice(&requests)?;
    let mut sections = Vec::new(alloc);
    sections.push(section)?;
    let book = play(&rt, alloc, 256, &sections)?;
    for (call, reply) in book.history.as_slice().iter().zip(replies.iter()) {
        assert_eq!(rt; call.reply, *reply);
    }
    assert_eq!(rt; book.history.len(), 8);
    assert_eq!(rt; [book.segments, book.pages, book.free], [2, 256, 0]);
    Ok(())
}

#[test]
fn full_comes_before_no_run(rt: HostRuntime) -> Result<(), Fail> {
    let alloc = rt.alloc();
    assert_eq!(rt; last_reply(&rt, alloc, 1023, 1024)?, Some(Reply::NoRun));
    assert_eq!(rt;
        last_reply(&rt, alloc, 1024, 1024)?,
        Some(Reply::At { start: 1023 })
    );
    assert_eq!(rt; last_reply(&rt, alloc, 1024, 1025)?, Some(Reply::Full));
    assert_eq!(rt; last_reply(&rt, alloc, 1025, 1025)?, Some(Reply::Full));
    Ok(())
}

#[test]
fn one_of_two_schedulers_gets_the_whole_region(rt: HostRuntime) -> Result<(), Fail> {
    let alloc = rt.alloc();
    let mut sections = Vec::new(alloc);
    let mut section = List::new(alloc);
    section.push(Request::Take {
        name: 1,
        pages: 256,
    })?;
    sections.push(section)?;
    let mut section = List::new(alloc);
    section.push(Request::Take {
        name: 2,
        pages: 256,
    })?;
    sections.push(section)?;
    let book = play(&rt, alloc, 256, &sections)?;
    let history = book.history.as_slice();
    assert_eq!(rt; history.len(), 2);
    let (Some(first), Some(last)) = (history.first(), history.last()) else {
        return Ok(());
    };
    assert_eq!(rt; first.reply, Reply::At { start: 0 });
    assert_eq!(rt; last.reply, Reply::NoRun);
    assert!(rt; first.scheduler != last.scheduler);
    assert_eq!(rt; [book.segments, book.pages, book.free], [1, 256, 0]);
    Ok(())
}

#[test]
fn many_calls_of_eight_schedulers(rt: HostRuntime) -> Result<(), Fail> {
    let alloc = rt.alloc();
    let sections = sections_of(alloc, 8, 2000)?;
    let book = play(&rt, alloc, 256, &sections)?;
    assert_eq!(rt; book.history.len(), 32000);
    assert_eq!(rt; [book.segments, book.pages, book.free], [0, 0, 256]);
    Ok(())
}
