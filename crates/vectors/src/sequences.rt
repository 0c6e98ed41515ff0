// A run over a source that cannot list: it needs no more than the first question.
use crate::asks::module_version;
use crate::projects::{UPPER, check_lines, network};
use buffers::buffer::{Buffer, Kind};
use causes::cause::Cause;
use causes::refusal::Refusal;
use modules::rows::{ModuleVersion, Row};
use runs::calls::{Call, Part, Reply};
use runs::run::run;
use source::fault::{Fault, Found};
use source::questions::Source;
use std::test::Fail;
use walks::counts::Counts;
use walks::place::Place;

// A source of which no listing is to be had: it is no `ListingSource`.
#[derive(Drop)]
struct Unlisted<S> {
    below: S,
}

impl<S: Source> Source for Unlisted<S> {
    ghost meaning = { λ u. S.Source.meaning u.below };

    ghost lawful = { λ u. S.Source.lawful u.below };

    fn requirements(&mut self, of: &ModuleVersion, rows: &mut [Row]) -> Result<Found, Fault> {
        self.below.requirements(of, rows)
    }
}

fn counted(places: usize, rows: usize) -> Option<Reply> {
    Some(Reply::Counted(Counts { places, rows }))
}

#[test]
fn without_listings(rt: HostRuntime) -> Result<(), Fail> {
    let heap = rt.alloc();
    let bytes = network(heap)?;
    let below = Buffer::open(Kind::Tree, &bytes)?;
    let trunk = module_version(b"trunk", b"v1.2.0")?;
    let rain = module_version(b"rain", b"v1.0.0")?;
    let calls = [
        Call::List,
        Part { start: 0, end: 54 }.load(UPPER),
        Call::List,
        Call::Exclude(trunk),
        Call::Exclude(trunk),
        Call::Raise(module_version(b"outfall", b"v1.1.0")?),
        Call::Drop(rain.path),
        Call::List,
        Call::Drop(trunk.path),
    ];
    let refused = Reply::Refused(Refusal::at(Cause::NothingToChange, 0));
    let expected = [
        counted(1, 1),
        Some(Reply::Accepted),
        counted(6, 4),
        Some(Reply::Accepted),
        Some(refused),
        Some(Reply::Accepted),
        Some(Reply::Accepted),
        counted(4, 3),
    ];
    let mut sheet = vec![in heap; Place::blank(); 256]?;
    let mut list = vec![in heap; Row::blank(); 256]?;
    let mut replies = [None; 8];
    let project = run(
        Unlisted { below },
        &calls,
        &mut sheet,
        &mut list,
        &mut replies,
    );
    assert!(rt; replies == expected);
    check_lines(
        &rt,
        heap,
        list.as_slice(),
        b"upper v0.0.0\noutfall v1.3.0\ntrunk v1.0.0\n",
    )?;
    assert!(rt;
        project.requirements().len() == 2,
        "there was no place for a ninth reply"
    );
    Ok(())
}
