//! Tests of primitive methods through their public calls, a module for each class. They stand apart from the crate, so
//! that no crate is proved a second time for its tests. The expected answers were written down by hand, or by Ruby 3.1
//! where the language answers as Ruby does.
#![tactic(auto)]

#[cfg(test)]
mod array;
#[cfg(test)]
mod array_table;
#[cfg(test)]
mod call;
#[cfg(test)]
mod exception;
#[cfg(test)]
mod exception_table;
#[cfg(test)]
mod integer;
#[cfg(test)]
mod integer_table;
#[cfg(test)]
mod item;
#[cfg(test)]
mod kernel;
#[cfg(test)]
mod kernel_table;
#[cfg(test)]
mod module;
#[cfg(test)]
mod names;
#[cfg(test)]
mod nil;
#[cfg(test)]
mod outcome;
#[cfg(test)]
mod string;
#[cfg(test)]
mod string_table;
#[cfg(test)]
mod symbol;
#[cfg(test)]
mod symbol_table;
