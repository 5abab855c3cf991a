//! The laws of patterns.

ghost use Rattle.smb_patterns.specs.PatternLaws.{AsteriskMatchesEveryName, LiteralsMatchTheirName, QuestionMarksCount, DosStarKeepsTheLastDot, DosStarLeavesTheExtension, DosQmsMatchShortNames, DosDotBeginsAnExtension, ATrailingDotIsWanted, CaseMakesNoDifference, TheTestIsTheRelation};

/// What patterns match, in a user's words: the contract is the statement, and the body does nothing.
pub fn laws_of_patterns()
    ensures asterisk { AsteriskMatchesEveryName }
    ensures literals { LiteralsMatchTheirName }
    ensures question_marks { QuestionMarksCount }
    ensures dos_star { DosStarKeepsTheLastDot }
    ensures extension { DosStarLeavesTheExtension }
    ensures dos_qm { DosQmsMatchShortNames }
    ensures dos_dot { DosDotBeginsAnExtension }
    ensures trailing_dot { ATrailingDotIsWanted }
    ensures folded { CaseMakesNoDifference }
    ensures test { TheTestIsTheRelation }
{}
