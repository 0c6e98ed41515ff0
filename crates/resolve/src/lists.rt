// `resolve list`, `resolve graph` and `resolve why`: a project over a pile, loaded from a manifest and listed.
use crate::ask::path_of;
use crate::check::file_bytes;
use crate::failure::{Failure, naming};
use crate::listed::Listed;
use crate::piles::{Task, with_pile};
use crate::print::{Ascii, Shown, print_rows, print_sheet};
use commands::chains::chain_to;
use modules::rows::Row;
use project::project::Project;
use source::questions::ListingSource;

// The text of the manifest of which a list is asked.
#[derive(Drop)]
struct Listing {
    text: Vec<u8>,
}

impl Task for Listing {
    type Answer = Listed;

    fn run<S: ListingSource>(&self, rt: &HostRuntime, pile: &mut S) -> Result<Listed, Failure> {
        let mut project = Project::new(pile);
        project.load(&self.text)?;
        let mut listed = Listed::blank(rt)?;
        let counts = project.list(&mut listed.sheet, &mut listed.rows)?;
        listed.cut(counts);
        Ok(listed)
    }
}

fn listed_of(rt: &HostRuntime, manifest: &str, sources: &[&str]) -> Result<Listed, Failure> {
    let text = file_bytes(rt, manifest)?;
    with_pile(rt, sources, &Listing { text })
}

// A main module stands without a version.
fn print_main(rt: &HostRuntime, main: &Row) -> Result<(), Failure> {
    println!(rt; "{}", Ascii(main.path.as_bytes()))?;
    Ok(())
}

// The list, the main module first.
pub fn list(rt: &HostRuntime, manifest: &str, sources: &[&str]) -> Result<(), Failure> {
    let listed = listed_of(rt, manifest, sources)?;
    if let [main, others @ ..] = listed.rows.as_slice() {
        print_main(rt, main)?;
        print_rows(rt, "", others)?;
    }
    Ok(())
}

// The sheet.
pub fn graph(rt: &HostRuntime, manifest: &str, sources: &[&str]) -> Result<(), Failure> {
    let listed = listed_of(rt, manifest, sources)?;
    print_sheet(rt, &listed.sheet)
}

// The chain to the version of a path that the list selects, from the main module on.
pub fn why(rt: &HostRuntime, manifest: &str, word: &str, sources: &[&str]) -> Result<(), Failure> {
    let path = path_of(rt, word)?.plain();
    let Listed { sheet, rows } = listed_of(rt, manifest, sources)?;
    let row = rows
        .iter()
        .find(|row| row.path == path)
        .try_ok_or_else(|| naming(rt, word, Failure::NotListed))?;
    let Some(at) = sheet.iter().position(|place| place.row == *row) else {
        return Ok(());
    };
    let chain = chain_to(rt.alloc(), &sheet, at)?;
    if let [others @ .., main] = chain.as_slice() {
        print_main(rt, main)?;
        for row in others.iter().rev() {
            println!(rt; "{}", Shown(row))?;
        }
    }
    Ok(())
}
