// A place of the sheet: a row, and the number of the place that it came from.
ghost use Rattle.std.specs.Prelude.{◌≡◌};
ghost use Rattle.rules.specs.Slices.{blank_place};
ghost use Rattle.walks.specs.Places.{place_of};

use modules::rows::Row;

#[derive(Clone, Copy, PartialEq, Eq, Debug)]
pub struct Place {
    pub row: Row,
    pub from: usize,
}

impl Place {
    // The blank row from place 0, which stands where there is none.
    pub fn blank() -> Place
        ensures value { place_of result ≡ blank_place }
    {
        Place {
            row: Row::blank(),
            from: 0,
        }
    }
}
