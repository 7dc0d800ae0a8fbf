// Tests of the crate interval.
#![tactic(auto)]

#[cfg(test)]
mod limits;
#[cfg(test)]
mod small;
