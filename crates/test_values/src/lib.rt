//! Tests of texts, names, the outside and the history.
#![tactic(auto)]

#[cfg(test)]
mod history;
#[cfg(test)]
mod names;
#[cfg(test)]
mod outside;
#[cfg(test)]
mod text;
