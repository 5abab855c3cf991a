//! What a request is charged ([MS-SMB2] 3.3.5.2.3, 3.3.5.2.5).

ghost use Rattle.std.specs.Prelude.{◌≡◌, ◌≤◌};
ghost use Rattle.smb_request.specs.Charge.{charge_of};

use smb_wire::Dialect;

/// How many MessageIds a request of this CreditCharge takes, its own and those that follow it, on a connection of a
/// dialect: 1 at least, and 1 where that is not 2.1.
pub fn charge_of(dialect: Option<Dialect>, credit_charge: u16) -> u16
    ensures charge { result ≡ charge_of dialect credit_charge }
    ensures some { 1 ≤ result }
{
    match dialect {
        None | Some(Dialect::Smb202) => 1,
        Some(Dialect::Smb210) => credit_charge.max(1),
    }
}
