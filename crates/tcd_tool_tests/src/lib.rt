//! Tests of the commands: texts of cases, which run on files in memory.
#![tactic(auto)]

#[cfg(test)]
mod boot;
#[cfg(test)]
mod building;
#[cfg(test)]
mod cellcert;
#[cfg(test)]
mod cells;
#[cfg(test)]
mod checking;
#[cfg(test)]
mod executables;
#[cfg(test)]
mod files;
#[cfg(test)]
mod generating;
#[cfg(test)]
mod graphs;
#[cfg(test)]
mod inputs;
#[cfg(test)]
mod linking;
#[cfg(test)]
mod listings;
#[cfg(test)]
mod making;
#[cfg(test)]
mod plans;
#[cfg(test)]
mod refusals;
#[cfg(test)]
mod samples;
#[cfg(test)]
mod scripts;
#[cfg(test)]
mod ship;
#[cfg(test)]
mod sources;
#[cfg(test)]
mod stage;
#[cfg(test)]
mod tasks;
