// The sources that a command line names: `tree:FILE` and `shelf:FILE` are buffers, `dir:DIR` is a folder.
ghost use Rattle.std.specs.Prelude.{◌≡◌};
ghost use Rattle.std.specs.Option.{option_map};
ghost use Rattle.commands.specs.Arguments.{named_of, named_as, source_named};

#[derive(Clone, Copy)]
pub enum Form {
    Tree,
    Shelf,
    Dir,
}

// A source by its form and the name of its file or folder.
#[derive(Clone, Copy)]
pub struct Argument<'a> {
    pub form: Form,
    pub place: &'a str,
}

// A source of a form, where a word begins with the text that names the form.
fn named<'a>(form: Form, text: &str, word: &'a str) -> Option<Argument<'a>>
    ensures value { option_map named_of result ≡ named_as form text.now word.now }
{
    let place = word.strip_prefix(text)?;
    Some(Argument { form, place })
}

// What a word names, if it names a source.
pub fn argument_of<'a>(word: &'a str) -> Option<Argument<'a>>
    ensures value { option_map named_of result ≡ source_named word.now }
{
    named(Form::Tree, "tree:", word)
        .or(named(Form::Shelf, "shelf:", word))
        .or(named(Form::Dir, "dir:", word))
}
