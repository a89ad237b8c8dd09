//! Tests of the libraries, by public calls alone: forms, tables, words, files in memory, values,
//! states, points and runs.
#![tactic(auto)]

#[cfg(test)]
mod addresses;
#[cfg(test)]
mod asserts;
#[cfg(test)]
mod boards;
#[cfg(test)]
mod certificates;
#[cfg(test)]
mod checking;
#[cfg(test)]
mod contexts;
#[cfg(test)]
mod effects;
#[cfg(test)]
mod executables;
#[cfg(test)]
mod generated;
#[cfg(test)]
mod instructions;
#[cfg(test)]
mod linking;
#[cfg(test)]
mod listings;
#[cfg(test)]
mod making;
#[cfg(test)]
mod memory;
#[cfg(test)]
mod objects;
#[cfg(test)]
mod plans;
#[cfg(test)]
mod points;
#[cfg(test)]
mod programs;
#[cfg(test)]
mod real;
#[cfg(test)]
mod runs;
#[cfg(test)]
mod scripts;
#[cfg(test)]
mod seams;
#[cfg(test)]
mod statements;
#[cfg(test)]
mod states;
#[cfg(test)]
mod tasks;
#[cfg(test)]
mod values;
#[cfg(test)]
mod words;
