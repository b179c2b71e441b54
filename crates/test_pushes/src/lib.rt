//! Tests of the frames that subscribed connections are sent.
#![tactic(auto)]

#[cfg(test)]
mod pushes;
