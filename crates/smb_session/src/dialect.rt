//! NEGOTIATE: which dialect is chosen ([MS-SMB2] 3.3.5.4).

ghost use Rattle.std.specs.Prelude.{◌≡◌, ◌==◌, ◌*◌, take};
ghost use Rattle.std.specs.List.{list_any};
ghost use Rattle.smb_wire.specs.Pairs.{units_in};
ghost use Rattle.smb_wire.specs.Units.{units_of};
ghost use Rattle.smb_wire.specs.Dialects.{revision_of};
ghost use Rattle.smb_session.specs.Negotiate.{best_of};

use smb_wire::{Dialect, Units};

/// Whether a list has a dialect.
fn lists(dialects: Units<'_>, dialect: Dialect) -> bool
    ensures { result ≡ list_any (λ d. d == revision_of dialect) (units_of dialects.entry) }
{
    for i in 0..dialects.len() {
        if dialects.unit(i) == dialect.revision() {
            return true;
        }
    }
    false
}

/// The greatest dialect of the share that a list has.
fn best(dialects: Units<'_>) -> Option<Dialect>
    ensures { result ≡ best_of (units_of dialects.entry) }
{
    if lists(dialects, Dialect::Smb210) {
        Some(Dialect::Smb210)
    } else if lists(dialects, Dialect::Smb202) {
        Some(Dialect::Smb202)
    } else {
        None
    }
}

/// The greatest dialect of the share among those that bytes spell, two bytes each; a last odd byte is
/// passed over.
pub(crate) fn best_dialect(dialects: &[u8]) -> Option<Dialect>
    ensures { result ≡ best_of (units_in dialects.now) }
{
    let whole = dialects.len() / 2 * 2;
    let dialects = Units::of(&dialects[..whole])?;
    best(dialects)
}
