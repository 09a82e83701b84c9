//! Worked examples of motions and areas, as tests. They stand apart from `motions` and `geometry`, which would be proved twice with them.
#![tactic(auto)]

#[cfg(test)]
mod arcs;
#[cfg(test)]
mod making;
#[cfg(test)]
mod settings;
