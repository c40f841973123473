//! Whole runs of the program over texts in memory, as tables of texts with their reports, notes and statuses. It stands on `palp_engine`,
//! whose top call it makes, and on `palp_io` for sources and sinks in memory. It proves nothing of its own: the tables show that memory is
//! found, and that the words of the command line, the texts and the reports are those that users know.
#![tactic(auto)]

#[cfg(test)]
mod blocks;
#[cfg(test)]
mod duals;
#[cfg(test)]
mod faces;
#[cfg(test)]
mod lists;
#[cfg(test)]
mod numbers;
#[cfg(test)]
mod partitions;
#[cfg(test)]
mod runs;
#[cfg(test)]
mod streams;
#[cfg(test)]
mod texts;
#[cfg(test)]
mod words;
