//! Tests of the language that no table can hold: the stack that the deepest texts and evaluations take, and how little deep values do,
//! and the time that forks, large dictionaries and deep values take.
#![tactic(auto)]

#[cfg(test)]
mod deep_evaluations;
#[cfg(test)]
mod deep_texts;
#[cfg(test)]
mod stores;
