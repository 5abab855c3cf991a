//! The laws of logins.

ghost use Rattle.smb_ntlm.specs.Laws.{UsersAreProved, NoGuestComesUnasked, WithoutAccountsAllAreGuests, GuestsHaveTheRightOfGuests, KeysAreOfProofs, WithSigningOffNobodyHasAKey, WithSigningOnUsersHaveKeys, WhereRequiredKeysMustSign, GuestsHaveNoKey, WithSigningOnNoKeyIsExchanged, AccountsDoNotShow, WhatIsCutIsDenied, AnswersAreLawful, NothingChanges, ChallengeIsRead, GuestsAreStrangers, GuestsAreNoAccounts, HmacIsTheStandards, ProofIsTheStandards, Md4IsTheStandards, NtHashIsTheStandards};

/// What holds of every login: the contract is the statement, and the body does nothing.
pub fn laws_of_ntlm()
    ensures proved { UsersAreProved }
    ensures unasked { NoGuestComesUnasked }
    ensures guests { WithoutAccountsAllAreGuests }
    ensures rights { GuestsHaveTheRightOfGuests }
    ensures keyed { KeysAreOfProofs }
    ensures off { WithSigningOffNobodyHasAKey }
    ensures on { WithSigningOnUsersHaveKeys }
    ensures required { WhereRequiredKeysMustSign }
    ensures keyless { GuestsHaveNoKey }
    ensures unexchanged { WithSigningOnNoKeyIsExchanged }
    ensures hidden { AccountsDoNotShow }
    ensures cut { WhatIsCutIsDenied }
    ensures lawful { AnswersAreLawful }
    ensures stays { NothingChanges }
    ensures challenge { ChallengeIsRead }
    ensures strangers { GuestsAreStrangers }
    ensures apart { GuestsAreNoAccounts }
{}

/// The definitions give what the standards print: the contract is the statement, and the body does nothing.
pub fn laws_of_digests()
    ensures hmac { HmacIsTheStandards }
    ensures proof { ProofIsTheStandards }
    ensures md4 { Md4IsTheStandards }
    ensures nt_hash { NtHashIsTheStandards }
{}
