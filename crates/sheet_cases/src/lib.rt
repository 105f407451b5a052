// Tests of reading sheets: each refusal at its place, the limits, the drum task, and lists that are no sheets at all.
#![tactic(auto)]

#[cfg(test)]
mod conflicts;
#[cfg(test)]
mod drum;
#[cfg(test)]
mod limits;
#[cfg(test)]
mod list;
#[cfg(test)]
mod outcome;
#[cfg(test)]
mod refused;
#[cfg(test)]
mod stray;
