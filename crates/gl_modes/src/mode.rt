//! The six modes, their compatibility and their suprema.

ghost use Rattle.std.specs.Prelude.{◌≡◌, ◌≢◌, IfNone, IfSome};
ghost use Rattle.gl_modes.specs.Modes.{are_compatible, is_at_least, mode_text, supremum};

/// A lock mode: no lock, the two intentions, shared, shared with the intention to write, exclusive.
#[derive(Clone, Copy, PartialEq, Eq, Debug, Default)]
pub enum Mode {
    #[default]
    NL,
    IS,
    IX,
    S,
    SIX,
    X,
}

impl Mode {
    /// The mode's spelling, in capitals.
    pub fn text(self) -> &'static str
        ensures { result.now ≡ mode_text self }
    {
        match self {
            Mode::NL => "NL",
            Mode::IS => "IS",
            Mode::IX => "IX",
            Mode::S => "S",
            Mode::SIX => "SIX",
            Mode::X => "X",
        }
    }

    /// The mode that `text` spells; `None` for every other text, lower case included.
    pub fn read(text: &[u8]) -> Option<Mode>
        ensures spelt { IfSome result (λ mode. text.now ≡ mode_text mode) }
        ensures other { IfNone result ((mode : Mode) → text.now ≢ mode_text mode) }
    {
        if text == b"NL".as_slice() {
            Some(Mode::NL)
        } else if text == b"IS".as_slice() {
            Some(Mode::IS)
        } else if text == b"IX".as_slice() {
            Some(Mode::IX)
        } else if text == b"S".as_slice() {
            Some(Mode::S)
        } else if text == b"SIX".as_slice() {
            Some(Mode::SIX)
        } else if text == b"X".as_slice() {
            Some(Mode::X)
        } else {
            None
        }
    }
}

/// Whether two transactions may hold one node in these modes at the same time.
pub fn compatible(a: Mode, b: Mode) -> bool
    ensures { result ≡ are_compatible a b }
{
    match a {
        Mode::NL => true,
        Mode::IS => b != Mode::X,
        Mode::IX => matches!(b, Mode::NL | Mode::IS | Mode::IX),
        Mode::S => matches!(b, Mode::NL | Mode::IS | Mode::S),
        Mode::SIX => matches!(b, Mode::NL | Mode::IS),
        Mode::X => b == Mode::NL,
    }
}

/// The supremum: the least mode that is `a` or greater and `b` or greater.
pub fn sup(a: Mode, b: Mode) -> Mode
    ensures { result ≡ supremum a b }
{
    match (a, b) {
        (Mode::NL, mode) | (mode, Mode::NL) => mode,
        (Mode::X, _) | (_, Mode::X) => Mode::X,
        (Mode::IS, mode) | (mode, Mode::IS) => mode,
        (Mode::IX, Mode::IX) => Mode::IX,
        (Mode::S, Mode::S) => Mode::S,
        _ => Mode::SIX,
    }
}

/// Whether `a` is `b` or greater.
pub fn covers(a: Mode, b: Mode) -> bool
    ensures { result ≡ is_at_least a b }
{
    sup(a, b) == a
}
