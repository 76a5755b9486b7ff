//! What is seen of a tree under a layout, as lines: what a file is expected to define, the keys of the map, the files that no
//! key loads, and the namespaces of roots that boot does not define. It stands on the scans of `zw_scan`, the maps of
//! `zw_map` and the lines of `zw_show`. It promises that each line is exactly the definition's where boot runs no file, so
//! that it leaves the core classes alone.
#![tactic(auto)]

mod boot;
mod line;
mod view;

pub use view::View;
