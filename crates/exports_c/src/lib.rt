// The calls for programs in C or Rust under their own names, in the static library libexports.a. Each is the call of
// that name of the crate exports, with its contract. include/metqoraz.h and rust/src/calls.rs declare them.
#![tactic(auto)]

mod buckets;
mod checks;
mod explaining;
mod meters;
mod orders;
mod plans;
mod texts;
