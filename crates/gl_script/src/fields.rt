//! The fields of a line.

ghost use Rattle.std.specs.Prelude.{◌≡◌, ◌≢◌, ◌==◌, ◌↔◌, [], ◌∷◌, ◌++◌, List, All, IfSome, IfNone, IsTrue, codes, false};
ghost use Rattle.std.specs.List.{slice_split};
ghost use Rattle.gl_script.specs.Grammar.{Text};
ghost use Rattle.gl_script.specs.Left.{left};

/// The fields of a line that are still to be read. Two fields are separated by exactly one space, so
/// two spaces in a row have an empty field between them.
#[derive(Drop)]
pub(crate) struct Fields<'a> {
    rest: Option<&'a [u8]>,
}

impl<'a> Fields<'a> {
    /// All fields of a line.
    #[tactic(auto, unfolding(crate::specs::Left::left))]
    pub(crate) fn of(line: &'a [u8]) -> Fields<'a>
        ensures { left result ≡ slice_split (λ b. b == 32) line.entry.now }
    {
        Fields { rest: Some(line) }
    }

    /// The next field, if one is left.
    #[tactic(auto, unfolding(crate::specs::Left::left))]
    pub(crate) fn next(&mut self) -> Option<&'a [u8]>
        ensures some { IfSome result (λ field. left self.old ≡ field.now ∷ left self.new) }
        ensures none { IfNone result (left self.old ≡ []) }
    {
        let rest = self.rest?;
        match cut(rest, b' ') {
            Some((field, more)) => {
                self.rest = Some(more);
                Some(field)
            }
            None => {
                self.rest = None;
                Some(rest)
            }
        }
    }

    /// The same fields, to be read twice.
    #[tactic(auto, unfolding(crate::specs::Left::left))]
    pub(crate) fn ahead(&self) -> Fields<'a>
        ensures { left result ≡ left self.now }
    {
        Fields { rest: self.rest }
    }

    /// Whether the next field is a colon.
    #[tactic(auto, unfolding(crate::specs::Left::left))]
    pub(crate) fn is_at_colon(&self) -> bool
        ensures colon { IsTrue result → (more : List Text) × (left self.now ≡ codes ":" ∷ more) }
        ensures other { result ≡ false → (more : List Text) → left self.now ≢ codes ":" ∷ more }
    {
        let mut ahead = Fields { rest: self.rest };
        matches!(ahead.next(), Some(b":"))
    }

    /// Whether no field is left.
    #[tactic(auto, unfolding(crate::specs::Left::left))]
    pub(crate) fn is_done(&self) -> bool
        ensures { IsTrue result ↔ (left self.now ≡ []) }
    {
        self.rest.is_none()
    }
}

/// The bytes before the first such byte, and those after it.
pub(crate) fn cut(text: &[u8], at: u8) -> Option<(&[u8], &[u8])>
    ensures found { IfSome result (λ parts. (text.entry.now ≡ parts.0.now ++ at ∷ parts.1.now) × All (λ b. b ≢ at) parts.0.now) }
    ensures none { IfNone result (All (λ b. b ≢ at) text.entry.now) }
{
    for (i, byte) in text.iter().enumerate() {
        if *byte == at {
            return Some((&text[..i], &text[i + 1..]));
        }
    }
    None
}
