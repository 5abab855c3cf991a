//! The laws of credits.

ghost use Rattle.smb_request_laws.specs.Credits.{CreditsAreGrantedAsAskedFor};

/// At least one credit is granted while the window has fewer than 256 MessageIds and numbers are left; never more than
/// are asked for, or 1 where none is; all of them where there is room for them; and the window never has more than
/// 256, nor a number above 2^64 - 2. The contract is the statement, and the body does nothing.
pub fn laws_of_credits()
    ensures granted { CreditsAreGrantedAsAskedFor }
{}
