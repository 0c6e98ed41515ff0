// The rules alone, with no code: specs/ has the definitions of the subject and what is claimed of them. The contract of each function here is
// one such claim, so that the crate is proved only if the claim is. The functions do nothing.
#![tactic(auto)]

ghost use Rattle.rules.specs.Names.{OrdersRight};
ghost use Rattle.rules.specs.Tables.{TablesRight};
ghost use Rattle.rules.specs.Layers.{LayerRight, FallbackRight, TwoLayersRight, PileRight};
ghost use Rattle.rules.specs.Questions.{QuestionsRight};
ghost use Rattle.rules.specs.Sheets.{SheetsRight};
ghost use Rattle.rules.specs.Lists.{ListRight};
ghost use Rattle.rules.specs.Faults.{RefusalRight};
ghost use Rattle.rules.specs.Lowers.{LowerRight, KeptMeant, SetsRight};
ghost use Rattle.rules.specs.Runs.{RunsRight, TidyRight};
ghost use Rattle.rules.specs.Changes.{ChangesRight};
ghost use Rattle.rules.specs.Examples.{Examples};
ghost use Rattle.rules.specs.Manifests.{ReadingsRight};

// The orders of paths, versions and module versions obey the laws; versions stand by precedence, and what is no version is below them all.
pub fn orders_stand()
    ensures { OrdersRight }
{}

// Lookup, insertion, joining and removal in tables of any items by any key, in any order that obeys the laws.
pub fn tables_stand<T, K>()
    ensures { TablesRight T K }
{}

// Over a lawful meaning the exclude layer is lawful; and what it answers.
pub fn layer_stands()
    ensures { LayerRight }
{}

// Over lawful meanings the fallback layer is lawful; and what it answers.
pub fn fallback_stands()
    ensures { FallbackRight }
{}

// What an exclude layer over a fallback answers, and a fallback over two exclude layers.
pub fn two_layers_stand()
    ensures { TwoLayersRight }
{}

// Every pile of layers on lawful sources is lawful.
pub fn pile_stands()
    ensures { PileRight }
{}

// What a question in a lent slice answers, and what the slice then holds.
pub fn questions_stand()
    ensures { QuestionsRight }
{}

// On the sheet of a list each place came from an earlier one, and the from numbers lead back along a chain.
pub fn sheet_stands()
    ensures { SheetsRight }
{}

// A list is the one that a walk gives exactly when it is fit and nowhere above any list that is fit.
pub fn list_stands()
    ensures { ListRight }
{}

// While at most 256 are reached, a list is refused exactly when for some reached one no requirement list is to be had, and a chain to it is shown.
pub fn refusal_stands()
    ensures { RefusalRight }
{}

// The kept rows of a lower lie in a sound set, no sound set has an old path above them, and a list right then shows just them.
pub fn lower_stands()
    ensures { LowerRight }
{}

// Whatever lies in a sound set fits, whichever set it is.
pub fn sets_stand<T>()
    ensures { SetsRight T }
{}

// The rows that a lower computes are the kept rows, and no others are.
pub fn kept_stands()
    ensures { KeptMeant }
{}

// All of this holds after every run of calls from the fresh state.
pub fn runs_stand()
    ensures { RunsRight }
{}

// After every run both tables of the state are tables and in bounds.
pub fn tidy_stands()
    ensures { TidyRight }
{}

// What load, raise, drop and exclude do to the tables, what they leave, and when they are accepted and refused.
pub fn changes_stand()
    ensures { ChangesRight }
{}

// What worked cases answer.
pub fn examples_stand()
    ensures { Examples }
{}

// What a text is read to is well formed and within the bounds, and every such manifest is read back from its plain text.
pub fn readings_stand()
    ensures { ReadingsRight }
{}
