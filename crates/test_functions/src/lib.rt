//! Tests of the functions of the seven kinds over a key space.
#![tactic(auto)]

#[cfg(test)]
mod countdown;
#[cfg(test)]
mod expirable;
#[cfg(test)]
mod fair;
#[cfg(test)]
mod fenced;
#[cfg(test)]
mod mutex;
#[cfg(test)]
mod read_write;
#[cfg(test)]
mod semaphore;
