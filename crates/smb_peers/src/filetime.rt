//! Times since 1970 as moments, and back ([MS-DTYP] 2.3.3).

ghost use Rattle.std.specs.Prelude.{◌≡◌, ◌*◌, ◌-◌, ◌<◌, ◌≤◌, ◌^◌, ◌↔◌, IsSome, IfSome};
ghost use Rattle.std.specs.Duration.{as_nanos};
ghost use Rattle.smb_peers.specs.Filetime.{of_1970, units_of};

use std::time::Duration;

/// The moment of 1970 in units of 100 ns since 1601.
pub const FILETIME_OF_1970: u64 = 116_444_736_000_000_000;

/// A moment in units of 100 ns since 1601, a FILETIME, by what has passed since 1970. A part of a unit is left out. None from the
/// year 60056 on.
pub fn filetime_of(since_1970: Duration) -> Option<u64>
    ensures value { IfSome result (λ filetime. filetime ≡ units_of since_1970) }
    ensures some { IsSome result ↔ (units_of since_1970 < 2 ^ 64) }
{
    let units = since_1970.as_nanos() / 100;
    u64::try_from(units).ok()?.checked_add(FILETIME_OF_1970)
}

/// What has passed since 1970 at a moment in units of 100 ns since 1601, a FILETIME: [`filetime_of`] takes it back to that moment.
/// None before 1970.
pub fn since_1970(filetime: u64) -> Option<Duration>
    ensures value { IfSome result (λ since. as_nanos since ≡ (filetime - of_1970) * 100) }
    ensures back { IfSome result (λ since. units_of since ≡ filetime) }
    ensures some { IsSome result ↔ (of_1970 ≤ filetime) }
{
    let units = filetime.checked_sub(FILETIME_OF_1970)?;
    Some(Duration::from_nanos_u128(u128::from(units) * 100))
}
