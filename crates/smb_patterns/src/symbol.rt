//! What a unit of a pattern stands for ([MS-FSA] 2.1.4.4).

ghost use Rattle.std.specs.Prelude.{◌≡◌, ◌↔◌, IsTrue, []};
ghost use Rattle.smb_patterns.specs.Patterns.{symbol_of, Takes};

/// What a unit of a pattern stands for.
#[derive(Clone, Copy, Debug, PartialEq, Eq)]
pub enum Symbol {
    /// `*`: any run of units.
    Asterisk,
    /// `?`: one unit.
    QuestionMark,
    /// `<`, the standard's DOS_STAR: any run of units without the last dot of the name.
    DosStar,
    /// `>`, the standard's DOS_QM: one unit other than a dot, or nothing before a dot or at the end.
    DosQm,
    /// `"`, the standard's DOS_DOT: a dot, or nothing at the end.
    DosDot,
    /// Any other unit: itself, folded.
    Literal(u16),
}

impl Symbol {
    /// What a unit stands for.
    pub fn of(unit: u16) -> Symbol
        ensures { result ≡ symbol_of unit }
    {
        match unit {
            0x2a => Symbol::Asterisk,
            0x3f => Symbol::QuestionMark,
            0x3c => Symbol::DosStar,
            0x3e => Symbol::DosQm,
            0x22 => Symbol::DosDot,
            _ => Symbol::Literal(unit),
        }
    }

    /// Whether it takes nothing at the end of a name.
    pub fn takes_nothing_at_the_end(self) -> bool
        ensures { IsTrue result ↔ Takes self [] [] }
    {
        match self {
            Symbol::Asterisk | Symbol::DosStar | Symbol::DosQm | Symbol::DosDot => true,
            Symbol::QuestionMark | Symbol::Literal(_) => false,
        }
    }
}
