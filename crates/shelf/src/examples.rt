// What worked shelves answer. The function does nothing; without the proof of its contract the crate is not proved.
ghost use Rattle.shelf.specs.Examples.{Shelves};

pub fn shelves_stand()
    ensures { Shelves }
{}
