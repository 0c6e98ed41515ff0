// What is written in a filling.
ghost use Rattle.std.specs.Prelude.{◌≡◌, length};
ghost use Rattle.walks.specs.Fillings.{items_of};

use super::Filling;

impl<'a, T> Filling<'a, T> {
    pub fn len(&self) -> usize
        ensures value { result ≡ length (items_of self.now) }
    {
        self.as_slice().len()
    }

    pub fn as_slice(&self) -> &[T]
        ensures value { result.now ≡ items_of self.now }
    {
        &self.items[..self.count]
    }
}
