//! The plain machine: what a script means. It keeps the rows of each base in a list, keeps no view, and computes what a
//! view shows anew from the rows at every call. The crate is definitions alone, in `specs/`; the program's contracts
//! compare it with them.
#![tactic(auto)]
