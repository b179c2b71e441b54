//! Tests of the frames of replies.
#![tactic(auto)]

#[cfg(test)]
mod rows;
