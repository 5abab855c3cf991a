//! The laws of numbers.

ghost use Rattle.smb_name_laws.specs.Numbers.{NoNumberIsGivenTwice};

/// The numbers of opens and of entries are given once, whatever requests are performed: the next number never falls,
/// and each that is in use is below it; a number that was given, and is not in use, never is again; and one that is
/// in use is of the same open, but for its scan, or of an entry of the same kind, as long as it is. So the number of
/// an open that was closed names no open again, and that of an entry that is gone no entry. The contract is the
/// statement, and the body does nothing.
pub fn laws_of_numbers()
    ensures once { NoNumberIsGivenTwice }
{}
