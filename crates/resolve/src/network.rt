// `resolve tour`: the base network, embedded, taken through load, list, lower, exclude and a refusal, step by step and in words.
use crate::ask::module_version_of;
use crate::failure::{Failure, message};
use crate::listed::Listed;
use crate::print::{first, print_rows};
use crate::sources::Loaded;
use buffers::buffer::Kind;
use causes::refusal::Refusal;
use commands::packing::push_file;
use project::project::Project;
use source::questions::{ListingSource, Source};

// A file of the tree.
#[derive(Clone, Copy)]
struct File {
    name: &'static str,
    body: &'static str,
}

// The last is the one that is left out in the end.
const FILES: [File; 5] = [
    File {
        name: "outfall/@v/v1.1.0.mod",
        body: "module outfall\n",
    },
    File {
        name: "outfall/@v/v1.3.0.mod",
        body: "module outfall\n",
    },
    File {
        name: "rain/@v/v1.0.0.mod",
        body: "module rain\nrequire trunk v1.2.0\n",
    },
    File {
        name: "trunk/@v/v1.0.0.mod",
        body: "module trunk\nrequire outfall v1.3.0\n",
    },
    File {
        name: "trunk/@v/v1.2.0.mod",
        body: "module trunk\nrequire outfall v1.1.0\n",
    },
];

const UPPER: &str = "module upper\nrequire (\n  trunk v1.0.0\n  rain v1.0.0\n)\n";

const TOLD: &str =
    "The base network, a tree of manifests, and the catchment `upper` that stands on it:
  upper         requires trunk v1.0.0 and rain v1.0.0
  trunk v1.0.0  requires outfall v1.3.0
  rain v1.0.0   requires trunk v1.2.0
  trunk v1.2.0  requires outfall v1.1.0
  outfall v1.1.0 and outfall v1.3.0 require nothing";

const INDENT: &str = "   ";

// A network of some files, as a tree.
fn network(rt: &HostRuntime, files: &[File]) -> Result<Loaded, Failure> {
    let mut bytes = Vec::new(rt.alloc());
    for file in files {
        push_file(&mut bytes, file.name.as_bytes(), file.body.as_bytes()).try_map_err(|_| message(
            rt,
            "the network does not fit a tree",
        ))?;
    }
    let kind = Kind::Tree;
    Ok(Loaded { kind, bytes })
}

// What a call came to, in words.
fn told(rt: &HostRuntime, answer: Result<(), Refusal>) -> Result<(), Failure> {
    match answer {
        Ok(()) => println!(rt; "{INDENT}accepted")?,
        Err(refusal) => println!(rt; "{INDENT}{refusal}")?,
    }
    Ok(())
}

// The rows of a list without the main one, or why there is none.
fn show_list<S: ListingSource>(rt: &HostRuntime, project: &mut Project<S>) -> Result<(), Failure> {
    let Listed {
        mut sheet,
        mut rows,
    } = Listed::blank(rt)?;
    match project.list(&mut sheet, &mut rows) {
        Ok(counts) => {
            if let [_, others @ ..] = first(&rows, counts.rows) {
                print_rows(rt, INDENT, others)?;
            }
        }
        Err(refusal) => println!(rt; "{INDENT}{refusal}")?,
    }
    Ok(())
}

fn load_and_list<S: ListingSource>(
    rt: &HostRuntime,
    project: &mut Project<S>,
) -> Result<(), Failure> {
    println!(rt; "1. Load the manifest of upper.")?;
    told(rt, project.load(UPPER.as_bytes()))?;
    println!(rt;
        "2. List: of each path the highest version that a chain of requirements from upper reaches, and no higher."
    )?;
    show_list(rt, project)?;
    println!(rt;
        "   outfall v1.3.0 counts, since trunk v1.0.0 is reached and asks for it, although trunk v1.2.0 is selected."
    )?;
    Ok(())
}

fn lower_and_list<S: ListingSource>(
    rt: &HostRuntime,
    project: &mut Project<S>,
) -> Result<(), Failure> {
    println!(rt; "3. Lower outfall to v1.1.0. What is kept:")?;
    let outfall = module_version_of(rt, "outfall", "v1.1.0")?;
    let Listed {
        mut sheet,
        mut rows,
    } = Listed::blank(rt)?;
    match project.lower(&outfall.path, &outfall.version, &mut sheet, &mut rows) {
        Ok(_) => print_rows(rt, INDENT, project.requirements())?,
        Err(refusal) => println!(rt; "{INDENT}{refusal}")?,
    }
    println!(rt;
        "   trunk v1.0.0 had to go, since it asks for outfall v1.3.0, which is above the new ceiling; rain and trunk keep the versions they had on the list."
    )?;
    println!(rt; "4. A list right after shows exactly what was kept.")?;
    show_list(rt, project)
}

fn exclude_and_list<S: ListingSource>(
    rt: &HostRuntime,
    project: &mut Project<S>,
) -> Result<(), Failure> {
    println!(rt; "5. Load upper again, exclude trunk v1.2.0, and list.")?;
    told(rt, project.load(UPPER.as_bytes()))?;
    let trunk = module_version_of(rt, "trunk", "v1.2.0")?;
    told(rt, project.exclude(&trunk))?;
    show_list(rt, project)?;
    println!(rt;
        "   rain v1.0.0 asks for trunk v1.2.0 in vain: what is excluded is left out, and nothing stands in its place."
    )?;
    println!(rt; "6. Exclude it once more.")?;
    told(rt, project.exclude(&trunk))?;
    println!(rt; "   A refused call leaves the project as it was.")?;
    Ok(())
}

fn without_a_file<S: ListingSource>(
    rt: &HostRuntime,
    project: &mut Project<S>,
) -> Result<(), Failure> {
    println!(rt; "7. The same network without the file of trunk v1.2.0: load upper, and list.")?;
    told(rt, project.load(UPPER.as_bytes()))?;
    show_list(rt, project)?;
    println!(rt;
        "   Cause 8, one layer down, at place 3 of the sheet: that is trunk v1.2.0, reached through rain v1.0.0."
    )?;
    Ok(())
}

pub fn show(rt: &HostRuntime) -> Result<(), Failure> {
    println!(rt; "{TOLD}")?;
    let whole = network(rt, &FILES)?;
    let mut project = Project::new(whole.open()?);
    load_and_list(rt, &mut project)?;
    lower_and_list(rt, &mut project)?;
    exclude_and_list(rt, &mut project)?;
    let broken = network(rt, &FILES[..FILES.len() - 1])?;
    let mut project = Project::new(broken.open()?);
    without_a_file(rt, &mut project)
}
