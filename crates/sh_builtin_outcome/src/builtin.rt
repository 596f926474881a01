//! The table of built-in utilities (XCU 1.6, 2.15).
ghost use Rattle.std.specs.Prelude.{◌≡◌};
ghost use Rattle.sh_builtin_outcome.specs.Builtins.{builtin_of, is_named, is_special, name_of, row_of, row_seen, regular, special};

/// A built-in utility.
#[derive(Clone, Copy, Debug, PartialEq, Eq)]
pub enum Builtin {
    Alias,
    Bg,
    /// `[`
    Bracket,
    Break,
    Cd,
    /// `:`
    Colon,
    Command,
    Continue,
    /// `.`
    Dot,
    Echo,
    Eval,
    Exec,
    Exit,
    Export,
    False,
    Fg,
    Jobs,
    Kill,
    Pwd,
    Read,
    ReadOnly,
    Return,
    Set,
    Shift,
    Test,
    Trap,
    True,
    Unalias,
    Unset,
    Wait,
}

/// A row of the table of built-ins.
#[derive(Clone, Copy)]
struct Row {
    name: &'static [u8],
    is_special: bool,
}

impl Row {
    /// The row of a special built-in (XCU 2.15).
    fn special(name: &'static [u8]) -> Row
        ensures { row_seen result ≡ special name.now }
    {
        Row {
            name,
            is_special: true,
        }
    }

    /// The row of another.
    fn regular(name: &'static [u8]) -> Row
        ensures { row_seen result ≡ regular name.now }
    {
        Row {
            name,
            is_special: false,
        }
    }
}

/// All of them.
const BUILTINS: [Builtin; 30] = [
    Builtin::Alias,
    Builtin::Bg,
    Builtin::Bracket,
    Builtin::Break,
    Builtin::Cd,
    Builtin::Colon,
    Builtin::Command,
    Builtin::Continue,
    Builtin::Dot,
    Builtin::Echo,
    Builtin::Eval,
    Builtin::Exec,
    Builtin::Exit,
    Builtin::Export,
    Builtin::False,
    Builtin::Fg,
    Builtin::Jobs,
    Builtin::Kill,
    Builtin::Pwd,
    Builtin::Read,
    Builtin::ReadOnly,
    Builtin::Return,
    Builtin::Set,
    Builtin::Shift,
    Builtin::Test,
    Builtin::Trap,
    Builtin::True,
    Builtin::Unalias,
    Builtin::Unset,
    Builtin::Wait,
];

impl Builtin {
    /// The table of built-ins.
    fn row(self) -> Row
        ensures { row_seen result ≡ row_of self }
    {
        match self {
            Builtin::Alias => Row::regular(b"alias"),
            Builtin::Bg => Row::regular(b"bg"),
            Builtin::Bracket => Row::regular(b"["),
            Builtin::Break => Row::special(b"break"),
            Builtin::Cd => Row::regular(b"cd"),
            Builtin::Colon => Row::special(b":"),
            Builtin::Command => Row::regular(b"command"),
            Builtin::Continue => Row::special(b"continue"),
            Builtin::Dot => Row::special(b"."),
            Builtin::Echo => Row::regular(b"echo"),
            Builtin::Eval => Row::special(b"eval"),
            Builtin::Exec => Row::special(b"exec"),
            Builtin::Exit => Row::special(b"exit"),
            Builtin::Export => Row::special(b"export"),
            Builtin::False => Row::regular(b"false"),
            Builtin::Fg => Row::regular(b"fg"),
            Builtin::Jobs => Row::regular(b"jobs"),
            Builtin::Kill => Row::regular(b"kill"),
            Builtin::Pwd => Row::regular(b"pwd"),
            Builtin::Read => Row::regular(b"read"),
            Builtin::ReadOnly => Row::special(b"readonly"),
            Builtin::Return => Row::special(b"return"),
            Builtin::Set => Row::special(b"set"),
            Builtin::Shift => Row::special(b"shift"),
            Builtin::Test => Row::regular(b"test"),
            Builtin::Trap => Row::special(b"trap"),
            Builtin::True => Row::regular(b"true"),
            Builtin::Unalias => Row::regular(b"unalias"),
            Builtin::Unset => Row::special(b"unset"),
            Builtin::Wait => Row::regular(b"wait"),
        }
    }

    /// The built-in of a name, `None` where there is none. Takes no memory.
    pub fn of(name: &[u8]) -> Option<Self>
        ensures { result ≡ builtin_of name.now }
    {
        BUILTINS
            .iter()
            .copied()
            .find(|builtin| builtin.name() == name)
    }

    /// Its name. No other has that name. Takes no memory.
    pub fn name(self) -> &'static [u8]
        ensures name { result.now ≡ name_of self }
        ensures found { builtin_of result.now ≡ Some self }
    {
        self.row().name
    }

    /// Whether this is its name. Takes no memory.
    pub fn is_named(self, name: &[u8]) -> bool
        ensures { result ≡ is_named self name.now }
    {
        name == self.name()
    }

    /// Whether it is a special built-in (XCU 2.15): an error in it ends a shell that isn't interactive, and
    /// assignments before it stay. Takes no memory.
    pub fn is_special(self) -> bool
        ensures { result ≡ is_special self }
    {
        self.row().is_special
    }
}
