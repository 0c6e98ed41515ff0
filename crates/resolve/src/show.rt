// The library at work on a few embedded examples: checks, the order of versions, the newer of two texts, and a table.
use crate::failure::Failure;
use crate::print::Ascii;
use modules::listing::Listing;
use names::path::Path;
use versions::texts::newer;
use versions::version::{PlainVersion, Version};

const PATHS: [&str; 4] = [
    "catchment/upper",
    "rain-2026",
    "catchment//upper",
    ".hidden/rain",
];

const VERSIONS: [&str; 4] = ["v1.2.3", "v1.0.0-beta.11", "v1.02.0", "v1.0"];

const MIXED: [&str; 9] = [
    "v1.0.0",
    "v1.10.0",
    "v1.0.0-alpha.beta",
    "v1.9.0",
    "v1.0.0-beta.11",
    "v1.0.0-beta.2",
    "v1.0.0-alpha",
    "v1.9.0",
    "v1.0.0-rc.1",
];

const PATH: &str =
    "Is it a path? Elements joined by slashes, none empty, none with a dot first or last.";

const VERSION: &str =
    "Is it a version? v, three numbers, perhaps identifiers; no number with a zero in front.";

pub fn show(rt: &HostRuntime) -> Result<(), Failure> {
    show_checks(rt, PATH, &PATHS, |text| Path::check(text).is_some())?;
    show_checks(
        rt,
        VERSION,
        &VERSIONS,
        |text| Version::check(text).is_some(),
    )?;
    show_newer(rt, "v1.9.0", "v1.10.0")?;
    show_newer(rt, "latest", "v0.0.1")?;
    show_table(rt)
}

// A question, and its answer for each text.
fn show_checks<F: Fn(&[u8]) -> bool>(
    rt: &HostRuntime,
    question: &str,
    texts: &[&str],
    check: F,
) -> Result<(), Failure>
    requires { F.IsAlwaysCallable check }
{
    println!(rt; "{question}")?;
    for text in texts {
        let answer = if check(text.as_bytes()) { "yes" } else { "no" };
        println!(rt; "  {text}: {answer}")?;
    }
    Ok(())
}

fn show_newer(rt: &HostRuntime, a: &str, b: &str) -> Result<(), Failure> {
    let first = a.as_bytes();
    let answer = if newer(first, b.as_bytes()) == first {
        a
    } else {
        b
    };
    println!(rt; "The newer of {a} and {b} is {answer}.")?;
    Ok(())
}

// Puts versions into a table in whatever order they come, and prints it.
fn show_table(rt: &HostRuntime) -> Result<(), Failure> {
    let mut listing = Listing::new();
    for version in MIXED
        .iter()
        .filter_map(|text| PlainVersion::of(text.as_bytes()))
    {
        // what is there already is refused
        let _ = listing.add(version);
    }
    let offered = MIXED.len();
    let taken = listing.as_slice().len();
    println!(rt;
        "A table of versions took {taken} of {offered} texts, one being there already, and holds them ascending:"
    )?;
    for version in listing.as_slice() {
        println!(rt; "  {}", Ascii(version.as_bytes()))?;
    }
    Ok(())
}
