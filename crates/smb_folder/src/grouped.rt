//! A number as it is written for people.

use std::fmt;

/// What each group of digits counts, the first one first.
const UNITS: [u64; 7] = [
    1_000_000_000_000_000_000,
    1_000_000_000_000_000,
    1_000_000_000_000,
    1_000_000_000,
    1_000_000,
    1_000,
    1,
];

/// A number whose digits are written in groups of three, with commas between them.
#[derive(Clone, Copy, Debug, PartialEq, Eq)]
pub struct Grouped(pub u64);

impl fmt::Display for Grouped {
    fn fmt<W: fmt::Write>(&self, f: &mut fmt::Formatter<W>) -> fmt::Result {
        let mut has_begun = false;
        for unit in UNITS {
            let group = self.0.checked_div(unit).unwrap_or(0) % 1_000;
            if has_begun {
                write!(f, ",{group:03}")?;
            } else if group > 0 || unit == 1 {
                has_begun = true;
                write!(f, "{group}")?;
            }
        }
        Ok(())
    }
}
