// Tests of what the other crates do on examples: boxes, rows, witnesses, the limits of a case, broken and odd records.
#![tactic(auto)]

#[cfg(test)]
mod boxes;
#[cfg(test)]
mod forming;
#[cfg(test)]
mod holding;
#[cfg(test)]
mod limits;
#[cfg(test)]
mod refusals;
#[cfg(test)]
mod rows_and_forests;
#[cfg(test)]
mod texts;
