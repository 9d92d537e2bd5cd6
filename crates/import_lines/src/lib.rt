// One line of a tray's log: what it does to the tray, and what it writes.
#![tactic(auto)]

mod steps;

pub use steps::import_line;
