//! The tests of the share and of its replay that no row of `smb_rows` can say.
#![tactic(auto)]

#[cfg(test)]
mod configs;
#[cfg(test)]
mod credits;
#[cfg(test)]
mod faults;
#[cfg(test)]
mod logs;
#[cfg(test)]
mod memory;
#[cfg(test)]
mod reads;
#[cfg(test)]
mod scripted;
#[cfg(test)]
mod served;
#[cfg(test)]
mod serving;
#[cfg(test)]
mod shown;
#[cfg(test)]
mod streams;
#[cfg(test)]
mod talk;
