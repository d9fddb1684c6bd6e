// The archive that C links, libchangegraph.a: each function of include/changegraph.h, with the promise word for word that the function of the same name has in its crate of the C face,
// which it calls. It has no code of its own. What each does and answers is said there and in the header.
#![tactic(auto)]

mod clocks;
mod graph_operations;
mod graph_questions;
mod text_session;
mod waiting_changes;
