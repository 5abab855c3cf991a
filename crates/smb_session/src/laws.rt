//! The laws of sessions and of windows.

ghost use Rattle.smb_session.specs.Laws.{WhatEndedIsGone, WhatIsGoneStaysGone, WhatIsTakenIsUsed, WhatIsUsedStaysUsed};

/// A session that ended is gone for good, and its number is never given again: the contract is the statement, and the
/// body does nothing.
pub fn laws_of_sessions()
    ensures ended { WhatEndedIsGone }
    ensures stays { WhatIsGoneStaysGone }
{}

/// A MessageId is used once: each that a chain takes, of however many credits its requests are, is in no window of its
/// connection again, whatever is taken and granted afterwards. The contract is the statement, and the body does nothing.
pub fn laws_of_windows()
    ensures taken { WhatIsTakenIsUsed }
    ensures stays { WhatIsUsedStaysUsed }
{}
