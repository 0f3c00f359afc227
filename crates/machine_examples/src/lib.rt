//! Scripts with their replies, each computed from the bytes of its lines by the plain machine's definitions. The replies
//! come from worked examples and from a second machine, written apart from these definitions. Nothing stands on this crate.
#![tactic(auto)]
