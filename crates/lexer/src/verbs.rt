// The verbs that a line or a block can begin with. Any word that is none of the four is another verb.
ghost use Rattle.std.specs.Prelude.{◌≡◌};
ghost use Rattle.rules.specs.Manifests.{verb_of};
ghost use Rattle.lexer.specs.Told.{verb_told};

#[derive(Clone, Copy, PartialEq, Eq, Debug)]
pub enum Verb {
    Module,
    Go,
    Require,
    Exclude,
    Other,
}

pub(crate) fn read_verb(word: &[u8]) -> Verb
    ensures value { verb_told result ≡ verb_of word.now }
{
    match word {
        b"module" => Verb::Module,
        b"go" => Verb::Go,
        b"require" => Verb::Require,
        b"exclude" => Verb::Exclude,
        _ => Verb::Other,
    }
}
