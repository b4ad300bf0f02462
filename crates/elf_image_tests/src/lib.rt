//! Tests of `elf_image`: a crate with tests is proved twice, so they stand in one of their own.
#![tactic(auto)]

#[cfg(test)]
mod hostile;
#[cfg(test)]
mod linked;
#[cfg(test)]
mod tools;
#[cfg(test)]
mod written;
