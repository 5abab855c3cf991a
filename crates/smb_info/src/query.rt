//! How a query goes on with the scan of its open ([MS-SMB2] 3.3.5.18, [MS-FSA] 2.1.5.6.3).

ghost use Rattle.std.specs.Prelude.{◌≡◌, ◌∷◌, [], unwrap_or};
ghost use Rattle.smb_wire.specs.Names.{folded};
ghost use Rattle.smb_wire.specs.Units.{units_of};
ghost use Rattle.smb_info.specs.Asks.{list_asked};
ghost use Rattle.smb_info.specs.Queries.{is_started_by, pattern_by, scan_by};
ghost use Rattle.smb_info.specs.Parts.{wants_one, unmatched_fault};

use super::fault::InfoFault;
use super::scan::ListAsk;
use bitflags::Flags;
use smb_access::{Scan, ScanLast};
use smb_wire::{FoldedName, QueryDirectoryFlags, Units};

// `*` in UTF-16.
const ASTERISK: &[u8] = b"*\0";

// The pattern that matches every name.
fn asterisk() -> FoldedName
    ensures { result ≡ 42 ∷ [] }
{
    FoldedName::of(Units::of(ASTERISK).unwrap()).unwrap()
}

/// Whether a query starts the scan.
pub(crate) fn is_started_by(scan: &Scan, ask: &ListAsk<'_>) -> bool
    ensures { result ≡ is_started_by scan.now (list_asked ask.now) }
{
    ask.flags.intersects(QueryDirectoryFlags::RESTART_SCANS)
        || ask.flags.intersects(QueryDirectoryFlags::REOPEN)
        || scan.pattern.is_none()
}

/// Whether at most one entry is wanted.
pub(crate) fn wants_one(ask: &ListAsk<'_>) -> bool
    ensures { result ≡ wants_one (list_asked ask.now) }
{
    ask.flags
        .intersects(QueryDirectoryFlags::RETURN_SINGLE_ENTRY)
}

// The pattern of the scan before; where there was none, that of every name.
fn former_pattern(scan: &Scan) -> FoldedName
    ensures { result ≡ unwrap_or scan.now.pattern (42 ∷ []) }
{
    match scan.pattern {
        Some(pattern) => pattern,
        None => asterisk(),
    }
}

/// The pattern by which the scan goes on, given the query's own.
pub(crate) fn pattern_by(scan: &Scan, ask: &ListAsk<'_>, own: &FoldedName) -> FoldedName
    requires { own.now ≡ folded (units_of ask.now.pattern) }
    ensures { result ≡ pattern_by scan.now (list_asked ask.now) }
{
    if is_started_by(scan, ask) && ask.pattern.len() != 0 {
        return *own;
    }
    former_pattern(scan)
}

/// The scan as the query goes on with it, given the pattern by which it does.
pub(crate) fn scan_by(scan: &Scan, ask: &ListAsk<'_>, pattern: &FoldedName) -> Scan
    requires { pattern.now ≡ pattern_by scan.now (list_asked ask.now) }
    ensures { result ≡ scan_by scan.now (list_asked ask.now) }
{
    let last = if is_started_by(scan, ask) {
        ScanLast::Start
    } else {
        scan.last
    };
    Scan {
        pattern: Some(*pattern),
        last,
    }
}

/// The refusal where no name is matched, given the scan as the query goes on with it.
pub(crate) fn unmatched(scan: &Scan, ask: &ListAsk<'_>, next: &Scan) -> InfoFault
    requires { next.now ≡ scan_by scan.now (list_asked ask.now) }
    ensures { result ≡ unmatched_fault scan.now (list_asked ask.now) }
{
    if is_started_by(scan, ask) {
        InfoFault::NoMatch(*next)
    } else {
        InfoFault::NoMore
    }
}
