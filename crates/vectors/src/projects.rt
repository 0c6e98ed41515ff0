// Projects: the worked networks, and what each call refuses at its edges. A refused call leaves the project as it was.
use crate::asks::{module_version, row};
use crate::shelves::push_field;
use buffers::buffer::{Buffer, Kind};
use causes::cause::Cause;
use causes::refusal::Refusal;
use commands::packing::{NotPacked, push_file};
use modules::rows::Row;
use project::project::Project;
use runs::calls::{Call, Reply};
use runs::door::Asked;
use source::questions::Source;
use std::alloc::{AllocError, Global};
use std::process::Abort;
use std::test::Fail;
use walks::counts::Counts;
use walks::place::Place;

pub(crate) const UPPER: &[u8; 54] = b"module upper\nrequire trunk v1.0.0\nrequire rain v1.0.0\n";

// The base network but for trunk v1.2.0.
fn broken_network(heap: Global) -> Result<Vec<u8>, NotPacked> {
    let mut tree = Vec::new(heap);
    let trunk = b"module trunk\nrequire outfall v1.3.0";
    push_file(&mut tree, b"trunk/@v/v1.0.0.mod", trunk)?;
    let rain = b"module rain\nrequire trunk v1.2.0";
    push_file(&mut tree, b"rain/@v/v1.0.0.mod", rain)?;
    push_file(&mut tree, b"outfall/@v/v1.1.0.mod", b"module outfall")?;
    push_file(&mut tree, b"outfall/@v/v1.3.0.mod", b"module outfall")?;
    Ok(tree)
}

pub(crate) fn network(heap: Global) -> Result<Vec<u8>, NotPacked> {
    let mut tree = broken_network(heap)?;
    let trunk = b"module trunk\nrequire outfall v1.1.0";
    push_file(&mut tree, b"trunk/@v/v1.2.0.mod", trunk)?;
    Ok(tree)
}

// Appends a row as a line, its path and its version parted by a space.
fn push_row(text: &mut Vec<u8>, row: &Row) -> Result<(), AllocError> {
    text.extend_from_slice(row.path.as_bytes())?;
    text.extend_from_slice(b" ")?;
    text.extend_from_slice(row.version.as_bytes())?;
    text.extend_from_slice(b"\n")
}

// What stands in a slice, as a line.
pub(crate) trait Told: PartialEq + Copy {
    fn blank() -> Self;

    fn push_to(&self, text: &mut Vec<u8>) -> Result<(), AllocError>;
}

impl Told for Row {
    fn blank() -> Row {
        Row::blank()
    }

    fn push_to(&self, text: &mut Vec<u8>) -> Result<(), AllocError> {
        push_row(text, self)
    }
}

// Behind the last digit of the place that it came from.
impl Told for Place {
    fn blank() -> Place {
        Place::blank()
    }

    fn push_to(&self, text: &mut Vec<u8>) -> Result<(), AllocError> {
        text.extend_from_slice(&[digit(self.from), b' '])?;
        push_row(text, &self.row)
    }
}

// The first items as lines, and a mark for each behind them that is not blank.
fn text_of<T: Told>(heap: Global, items: &[T], count: usize) -> Result<Vec<u8>, AllocError> {
    let mut text = Vec::new(heap);
    let blank = T::blank();
    for (i, item) in items.iter().enumerate() {
        if i < count {
            item.push_to(&mut text)?;
        } else if *item != blank {
            text.push(b'!')?;
        }
    }
    Ok(text)
}

// The items are these lines, with blanks behind them.
pub(crate) fn check_lines<T: Told>(
    rt: &impl Abort,
    heap: Global,
    items: &[T],
    lines: &[u8],
) -> Result<(), Fail> {
    let count = lines.iter().filter(|b| **b == b'\n').count();
    let text = text_of(heap, items, count)?;
    assert!(rt; text.as_slice() == lines);
    Ok(())
}

// Lists in slices that held other rows. What they hold then is told as lines, with blanks behind them.
fn check_list<S: Source>(
    rt: &impl Abort,
    heap: Global,
    project: &mut Project<S>,
    answer: Result<Counts, Refusal>,
    sheet_lines: &[u8],
    list_lines: &[u8],
) -> Result<(), Fail> {
    let used = row(b"used", b"v9.0.0")?;
    let mut sheet = vec![in heap; Place { row: used, from: 9 }; 256]?;
    let mut list = vec![in heap; used; 256]?;
    assert_eq!(rt; project.list(&mut sheet, &mut list), answer);
    check_lines(rt, heap, sheet.as_slice(), sheet_lines)?;
    check_lines(rt, heap, list.as_slice(), list_lines)
}

fn given(places: usize, rows: usize) -> Result<Counts, Refusal> {
    Ok(Counts { places, rows })
}

#[test]
fn base_network(rt: HostRuntime) -> Result<(), Fail> {
    let bytes = network(rt.alloc())?;
    let mut project = Project::new(Buffer::open(Kind::Tree, &bytes)?);
    assert_eq!(rt; project.load(UPPER), Ok(()));
    check_list(
        &rt,
        rt.alloc(),
        &mut project,
        given(6, 4),
        b"0 upper v0.0.0\n0 rain v1.0.0\n0 trunk v1.0.0\n1 trunk v1.2.0\n2 outfall v1.3.0\n3 outfall v1.1.0\n",
        b"upper v0.0.0\noutfall v1.3.0\nrain v1.0.0\ntrunk v1.2.0\n",
    )?;
    assert_eq!(rt;
        project.exclude(&module_version(b"trunk", b"v1.2.0")?),
        Ok(())
    );
    check_list(
        &rt,
        rt.alloc(),
        &mut project,
        given(4, 4),
        b"0 upper v0.0.0\n0 rain v1.0.0\n0 trunk v1.0.0\n2 outfall v1.3.0\n",
        b"upper v0.0.0\noutfall v1.3.0\nrain v1.0.0\ntrunk v1.0.0\n",
    )
}

#[test]
fn without_a_manifest(rt: HostRuntime) -> Result<(), Fail> {
    let bytes = broken_network(rt.alloc())?;
    let mut project = Project::new(Buffer::open(Kind::Tree, &bytes)?);
    assert_eq!(rt; project.load(UPPER), Ok(()));
    let refusal = Refusal {
        cause: Cause::Missing,
        place: 0,
        depth: 1,
        sheet_place: 3,
    };
    check_list(
        &rt,
        rt.alloc(),
        &mut project,
        Err(refusal),
        b"0 upper v0.0.0\n0 rain v1.0.0\n0 trunk v1.0.0\n1 trunk v1.2.0\n2 outfall v1.3.0\n",
        b"",
    )
}

// a at v1.0.0 and v1.1.0 require b, and that a at v1.1.0.
fn ring(heap: Global) -> Result<Vec<u8>, NotPacked> {
    let mut tree = Vec::new(heap);
    let b = b"module b\nrequire a v1.1.0";
    push_file(&mut tree, b"a/@v/v1.0.0.mod", b"module a\nrequire b v1.0.0")?;
    push_file(&mut tree, b"a/@v/v1.1.0.mod", b"module a\nrequire b v1.0.0")?;
    push_file(&mut tree, b"b/@v/v1.0.0.mod", b)?;
    Ok(tree)
}

#[test]
fn fresh_and_in_a_ring(rt: HostRuntime) -> Result<(), Fail> {
    let bytes = ring(rt.alloc())?;
    let mut project = Project::new(Buffer::open(Kind::Tree, &bytes)?);
    check_list(
        &rt,
        rt.alloc(),
        &mut project,
        given(1, 1),
        b"0 _ v0.0.0\n",
        b"_ v0.0.0\n",
    )?;
    assert_eq!(rt; project.load(b"module main\nrequire a v1.0.0"), Ok(()));
    check_list(
        &rt,
        rt.alloc(),
        &mut project,
        given(4, 3),
        b"0 main v0.0.0\n0 a v1.0.0\n1 b v1.0.0\n2 a v1.1.0\n",
        b"main v0.0.0\na v1.1.0\nb v1.0.0\n",
    )
}

fn digit(n: usize) -> u8 {
    b'0' + (n % 10) as u8
}

// A path of three digits.
fn nth_path(n: usize) -> [u8; 4] {
    [b'p', digit(n / 100), digit(n / 10), digit(n)]
}

// A line, and then so many: a text in front, a path, v1.0.0.
fn lines(heap: Global, first: &[u8], front: &[u8], count: usize) -> Result<Vec<u8>, AllocError> {
    let mut text = Vec::new(heap);
    text.extend_from_slice(first)?;
    for n in 0..count {
        text.extend_from_slice(front)?;
        text.extend_from_slice(&nth_path(n))?;
        text.extend_from_slice(b" v1.0.0\n")?;
    }
    Ok(text)
}

// A shelf of 255 paths at v1.0.0, each without rows.
fn wide_shelf(heap: Global) -> Result<Vec<u8>, AllocError> {
    let mut shelf = Vec::new(heap);
    for n in 0..255 {
        push_field(&mut shelf, b'M', &nth_path(n))?;
        push_field(&mut shelf, b'V', b"v1.0.0")?;
    }
    Ok(shelf)
}

// Over a shelf, the list of a main module that requires 255 paths or more. Where it is refused, the sheet is full and there is no list.
fn check_wide(
    rt: &impl Abort,
    heap: Global,
    shelf: &[u8],
    paths: usize,
    answer: Result<Counts, Refusal>,
) -> Result<(), Fail> {
    let mut project = Project::new(Buffer::open(Kind::Shelf, shelf)?);
    let text = lines(heap, b"module m\n", b"require ", paths)?;
    assert_eq!(rt; project.load(&text), Ok(()));
    let sheet = lines(heap, b"0 m v0.0.0\n", b"0 ", 255)?;
    let list = match answer {
        Ok(_) => lines(heap, b"m v0.0.0\n", b"", 255)?,
        Err(_) => Vec::new(heap),
    };
    check_list(rt, heap, &mut project, answer, &sheet, &list)
}

#[test]
fn places_of_a_sheet(rt: HostRuntime) -> Result<(), Fail> {
    let refused = Err(Refusal::at(Cause::TooManyModuleVersions, 0));
    let heap = rt.alloc();
    let mut shelf = wide_shelf(heap)?;
    // 256 are reached
    check_wide(&rt, heap, &shelf, 255, given(256, 256))?;
    // 257, all required by the main module
    check_wide(&rt, heap, &shelf, 256, refused)?;
    push_field(&mut shelf, b'R', b"q")?;
    push_field(&mut shelf, b'W', b"v1.0.0")?;
    // 257, the last required by the last place
    check_wide(&rt, heap, &shelf, 255, refused)
}

// A list in slices of so many places is refused, and both are blank then.
fn check_short<S: Source>(
    rt: &impl Abort,
    heap: Global,
    project: &mut Project<S>,
    places: usize,
    rows: usize,
) -> Result<(), Fail> {
    let used = row(b"used", b"v9.0.0")?;
    let mut sheet = vec![in heap; Place { row: used, from: 9 }; places]?;
    let mut list = vec![in heap; used; rows]?;
    assert_eq!(rt;
        project.list(&mut sheet, &mut list),
        Err(Refusal::at(Cause::SliceTooShort, 0))
    );
    check_lines(rt, heap, sheet.as_slice(), b"")?;
    check_lines(rt, heap, list.as_slice(), b"")
}

#[test]
fn short_slices(rt: HostRuntime) -> Result<(), Fail> {
    let mut project = Project::new(Buffer::open(Kind::Tree, b"")?);
    check_short(&rt, rt.alloc(), &mut project, 255, 256)?;
    check_short(&rt, rt.alloc(), &mut project, 256, 255)?;
    check_short(&rt, rt.alloc(), &mut project, 300, 0)
}

// The main path and both tables of a project, as lines.
fn tables_text<S: Source>(heap: Global, project: &Project<S>) -> Result<Vec<u8>, AllocError> {
    let mut text = Vec::new(heap);
    text.extend_from_slice(project.main().as_bytes())?;
    for row in project.requirements() {
        push_row(&mut text, row)?;
    }
    text.extend_from_slice(b"!")?;
    for row in project.exclusions() {
        push_row(&mut text, row)?;
    }
    Ok(text)
}

// Makes calls that need no slices, each of which is replied to as told.
fn check_calls<S: Source>(
    rt: &impl Abort,
    project: &mut Project<S>,
    calls: &[Call],
    replies: &[Reply],
) {
    for (asked, reply) in calls.iter().zip(replies) {
        assert_eq!(rt; asked.make(project, &mut [], &mut []), *reply);
    }
}

fn refused(cause: Cause, place: usize) -> Reply {
    Reply::Refused(Refusal::at(cause, place))
}

#[test]
fn full_tables(rt: HostRuntime) -> Result<(), Fail> {
    let heap = rt.alloc();
    let rows = lines(heap, b"module m\n", b"require ", 256)?;
    let full = lines(heap, &rows, b"exclude ", 32)?;
    let over = lines(heap, b"module n\n", b"require ", 257)?;
    let there = module_version(b"p000", b"v1.0.0")?;
    let new = module_version(b"q", b"v1.0.0")?;
    let mut project = Project::new(Buffer::open(Kind::Tree, b"")?);
    assert_eq!(rt; project.load(&full), Ok(()));
    let before = tables_text(heap, &project)?;
    let calls = [
        Call::Load(&over),
        Call::Raise(there),
        Call::Raise(new),
        Call::Drop(new.path),
        Call::Exclude(there),
        Call::Exclude(new),
    ];
    let replies = [
        refused(Cause::RowTooMany, 258),
        refused(Cause::NothingToChange, 0),
        refused(Cause::TableFull, 0),
        refused(Cause::NothingToChange, 0),
        refused(Cause::NothingToChange, 0),
        refused(Cause::TableFull, 0),
    ];
    check_calls(&rt, &mut project, &calls, &replies);
    let after = tables_text(heap, &project)?;
    assert!(rt; after.as_slice() == before.as_slice(), "it is as it was");
    let higher = module_version(b"p000", b"v1.0.1")?;
    let calls = [
        Call::Raise(higher),
        Call::Drop(there.path),
        Call::Raise(new),
    ];
    check_calls(&rt, &mut project, &calls, &[Reply::Accepted; 3]);
    assert!(rt; project.requirements().len() == 256);
    Ok(())
}
