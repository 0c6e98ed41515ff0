// A lent slice of at least 256 places, and the items that are written in it: at most 256, from the first place on. What stands behind them says
// nothing, until blanks are written there. A sheet is such a filling, and so are the rows of a list. Who lends a slice makes the filling of it, and
// shows by that that it has the places.
ghost use Rattle.std.specs.Prelude.{◌≤◌, length};

pub mod edits;
pub mod reads;

#[derive(Drop)]
pub struct Filling<'a, T> {
    pub items: &'a mut [T],
    pub count: usize,
    ghost room: { (count ≤ 256) × (256 ≤ length items.now) },
}
