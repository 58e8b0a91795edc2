// "Changed keys: keys of seeds and pending, ascending, cut into windows of the width": the windows of a call, from the first to the last.
#![tactic(auto)]

mod all;

pub use all::work_windows;
