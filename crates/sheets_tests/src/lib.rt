// Tests of the crates system and sheets.
#![tactic(auto)]

#[cfg(test)]
mod band;
#[cfg(test)]
mod comparing;
#[cfg(test)]
mod counts;
#[cfg(test)]
mod holding;
#[cfg(test)]
mod limits;
#[cfg(test)]
mod making;
#[cfg(test)]
mod order;
#[cfg(test)]
mod parts;
#[cfg(test)]
mod sizing;
