//! The words of who may connect.

use super::options::{Needed, OptionRow, Takes};

/// Which clients may come.
pub(crate) const HOSTS: OptionRow = OptionRow {
    name: "hosts",
    takes: Takes::Text("LIST"),
    needed: Needed::Never,
    bars: &[],
    help: "Which clients may connect: IP addresses and networks, such as 192.168.1.0/24,10.1.2.3,fd00::/8 [default: all]",
};

/// How many of them from one address.
pub(crate) const PER_ADDRESS: OptionRow = OptionRow {
    name: "per-address",
    takes: Takes::NumberUpTo("N", 4_096),
    needed: Needed::Never,
    bars: &[],
    help: "How many clients of one address, of IPv6 of one /64, may be connected, 4096 at most [default: as many as of all]",
};
