//! Tables of polytopes on which the calls on hulls, on lattice points and on visits agree with each other, with a plain filter of a box, and
//! with what is known of them. It stands on `hull` and `point_scan`. It proves nothing of its own: the tables show that memory is found for
//! large polytopes, too, and that the definitions give the numbers that everybody knows.
#![tactic(auto)]

#[cfg(test)]
mod dilates;
#[cfg(test)]
mod hulls;
#[cfg(test)]
mod large_hulls;
#[cfg(test)]
mod scans;
#[cfg(test)]
mod visits;
