// The names of the stock programs.
ghost use Rattle.std.specs.Prelude.{◌≡◌};
ghost use Rattle.sh_stock.specs.Programs.{name_of};

/// A stock program, by its name.
#[derive(Clone, Copy)]
pub(crate) enum Name {
    Cat,
    Echo,
    True,
    False,
    Yes,
    Spin,
    Head,
    Having,
    Count,
    ReadStop,
}

impl Name {
    /// The program of this name, if there is one.
    pub(crate) fn of(word: &[u8]) -> Option<Name>
        ensures { result ≡ name_of word.now }
    {
        if word == b"cat".as_slice() {
            return Some(Name::Cat);
        }
        if word == b"echo".as_slice() {
            return Some(Name::Echo);
        }
        if word == b"true".as_slice() {
            return Some(Name::True);
        }
        if word == b"false".as_slice() {
            return Some(Name::False);
        }
        if word == b"yes".as_slice() {
            return Some(Name::Yes);
        }
        if word == b"spin".as_slice() {
            return Some(Name::Spin);
        }
        if word == b"head".as_slice() {
            return Some(Name::Head);
        }
        if word == b"having".as_slice() {
            return Some(Name::Having);
        }
        if word == b"count".as_slice() {
            return Some(Name::Count);
        }
        if word == b"readstop".as_slice() {
            return Some(Name::ReadStop);
        }
        None
    }
}
