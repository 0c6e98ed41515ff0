// `resolve run SOURCE..`: calls from standard input, one a line, each made on one project over the pile. What a line asks for is replied in lines that a
// script can read; a line that cannot be understood is an error, and the next line is read.
use crate::ask::{module_version_of, path_of};
use crate::check::file_bytes;
use crate::failure::{Failure, message};
use crate::listed::Listed;
use crate::piles::{Task, with_pile};
use crate::print::{Ascii, first, print_rows, print_sheet};
use modules::rows::Row;
use project::project::Project;
use runs::calls::{Call, ListingCall, Reply};
use runs::door::Asked;
use source::questions::{ListingSource, Source};
use walks::place::Place;

const NO_SUCH_CALL: &str = "no such call";

// The lines of standard input, one after another.
struct Session;

impl Task for Session {
    type Answer = ();

    fn run<S: ListingSource>(&self, rt: &HostRuntime, pile: &mut S) -> Result<(), Failure> {
        let mut project = Project::new(pile);
        let mut listed = Listed::blank(rt)?;
        for line in rt.lines(rt.alloc()) {
            let line = line?;
            // Kept: an error is told in its place, and the next line is read.
            if let Err(e) = answer(rt, &mut project, &line, &mut listed) {
                println!(rt; "error {e}")?;
            }
        }
        Ok(())
    }
}

// Does what a line asks for; one without words asks for nothing.
fn answer<S: ListingSource>(
    rt: &HostRuntime,
    project: &mut Project<S>,
    line: &str,
    listed: &mut Listed,
) -> Result<(), Failure> {
    let words: Vec<&str> = line.split_whitespace().collect(rt.alloc())?;
    match words.as_slice() {
        [] => Ok(()),
        ["show"] => print_project(rt, project),
        words => {
            let mut text = Vec::new(rt.alloc());
            let asked = call_of(rt, words, &mut text)?;
            let reply = asked.make(project, &mut listed.sheet, &mut listed.rows);
            print_reply(rt, &asked, reply, listed)
        }
    }
}

// The call that the words of a line ask for; a load's file is read.
fn call_of<'a>(
    rt: &HostRuntime,
    words: &[&str],
    text: &'a mut Vec<u8>,
) -> Result<ListingCall<'a>, Failure> {
    match words {
        ["list"] => Ok(ListingCall::Any(Call::List)),
        ["load", file] => {
            *text = file_bytes(rt, file)?;
            Ok(ListingCall::Any(Call::Load(text.as_slice())))
        }
        ["drop", path] => Ok(ListingCall::Any(Call::Drop(path_of(rt, path)?))),
        [verb, path, version] => change_of(rt, verb, path, version),
        _ => Err(message(rt, NO_SUCH_CALL)?),
    }
}

fn change_of<'a>(
    rt: &HostRuntime,
    verb: &str,
    path: &str,
    version: &str,
) -> Result<ListingCall<'a>, Failure> {
    let of = module_version_of(rt, path, version)?;
    match verb {
        "raise" => Ok(ListingCall::Any(Call::Raise(of))),
        "exclude" => Ok(ListingCall::Any(Call::Exclude(of))),
        "lower" => Ok(ListingCall::Lower(of)),
        _ => Err(message(rt, NO_SUCH_CALL)?),
    }
}

// A reply, and behind that of a call which writes the slices what they hold: of one that is refused, up to the last that is not blank.
fn print_reply(
    rt: &HostRuntime,
    asked: &ListingCall,
    reply: Reply,
    listed: &Listed,
) -> Result<(), Failure> {
    let Listed { sheet, rows } = listed;
    match reply {
        Reply::Accepted => println!(rt; "ok")?,
        Reply::Counted(counts) => {
            println!(rt; "ok {} {}", counts.places, counts.rows)?;
            print_slices(rt, first(sheet, counts.places), first(rows, counts.rows))?;
        }
        Reply::Refused(refusal) => {
            println!(rt; "{refusal}")?;
            if writes_slices(asked) {
                print_slices(rt, used(sheet, Place::blank()), used(rows, Row::blank()))?;
            }
        }
    }
    Ok(())
}

// Whether a call writes the slices: list and lower do.
fn writes_slices(asked: &ListingCall) -> bool {
    matches!(asked, ListingCall::Lower(_) | ListingCall::Any(Call::List))
}

fn print_slices(rt: &HostRuntime, sheet: &[Place], rows: &[Row]) -> Result<(), Failure> {
    println!(rt; "sheet")?;
    print_sheet(rt, sheet)?;
    println!(rt; "list")?;
    print_rows(rt, "", rows)
}

// What stands up to the last item that is not blank.
fn used<T: PartialEq + Copy>(items: &[T], blank: T) -> &[T] {
    match items.iter().rposition(|item| *item != blank) {
        Some(last) => &items[..=last],
        None => &[],
    }
}

fn print_project<S: ListingSource>(rt: &HostRuntime, project: &Project<S>) -> Result<(), Failure> {
    println!(rt; "project {}", Ascii(project.main().as_bytes()))?;
    print_rows(rt, "require ", project.requirements())?;
    print_rows(rt, "exclude ", project.exclusions())
}

pub fn run(rt: &HostRuntime, sources: &[&str]) -> Result<(), Failure> {
    with_pile(rt, sources, &Session)
}
