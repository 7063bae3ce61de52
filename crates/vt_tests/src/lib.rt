//! Tests of what no script shows: the words, faults and exit status of the program, readers and writers, devices that
//! fail, and peer groups.
#![tactic(auto)]

#[cfg(test)]
mod adapters;
#[cfg(test)]
mod commands;
#[cfg(test)]
mod devices;
#[cfg(test)]
mod groups;
