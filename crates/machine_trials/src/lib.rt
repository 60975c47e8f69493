//! Trials of runs of images, which are written by hand and run on the machine.
#![tactic(auto)]

#[cfg(test)]
mod arms;
#[cfg(test)]
mod building;
#[cfg(test)]
mod faults;
#[cfg(test)]
mod frames;
#[cfg(test)]
mod instances;
#[cfg(test)]
mod jumps;
#[cfg(test)]
mod ordering;
#[cfg(test)]
mod plain;
#[cfg(test)]
mod ranges;
#[cfg(test)]
mod running;
